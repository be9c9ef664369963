ghost use Rattle.std.specs.Prelude.{◌≡◌};
ghost use Rattle.writer.specs.Writes.{refusal_number};

// Why a book was not written: the bytes are fewer than its file has.
#[derive(Clone, Copy, PartialEq, Eq, Debug)]
pub enum Refusal {
    TooShort,
}

impl Refusal {
    pub fn number(self) -> u8
        ensures { result ≡ refusal_number self }
    {
        match self {
            Refusal::TooShort => 31,
        }
    }
}
