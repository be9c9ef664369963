ghost use Rattle.std.specs.Prelude.{◌≡◌, [], ◌∷◌, ◌++◌, is_ok, if◌then◌else◌, Some, string_bytes};
ghost use Rattle.lines.specs.Replies.{text};

pub use model::counts::Counts;
use std::alloc::AllocError;
use std::fmt;

// What is printed. A refusal is its number here, which is all that a line shows of it; why it is refused stands in the session.
#[derive(Clone, Copy, Debug)]
pub enum Reply {
    Distance(Option<u8>),
    Gap(Option<u8>),
    No(u8),
    BookNo(u8),
}

impl fmt::Display for Reply {
    ghost output = { λ x. Some (text x) };

    fn fmt<W: fmt::Write>(&self, f: &mut fmt::Formatter<W>) -> fmt::Result {
        match *self {
            Reply::Distance(Some(n)) | Reply::Gap(Some(n)) => write!(f, "{n}"),
            Reply::Distance(None) | Reply::Gap(None) => write!(f, "never"),
            Reply::No(n) => write!(f, "no {n}"),
            Reply::BookNo(n) => write!(f, "book no {n}"),
        }
    }
}

// Where there is no memory, `out` is as it was.
pub fn push_reply(out: &mut String, reply: Reply) -> Result<(), AllocError>
    ensures { string_bytes out.new ≡ (if is_ok result then string_bytes out.old ++ (text reply ++ (10 ∷ [])) else string_bytes out.old) }
{
    let alloc = *out.allocator();
    let line = format!(in alloc; "{reply}\n")?;
    out.push_str(line.as_str())
}
