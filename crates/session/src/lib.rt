// A session at the bench: what is typed, and what is printed.
#![tactic(auto)]

ghost use Rattle.std.specs.Prelude.{◌≡◌, ℕ, List, [], ◌++◌, string_bytes, OnOk};
ghost use Rattle.book.specs.Views.{task};
ghost use Rattle.session.specs.Refusals.{said};
ghost use Rattle.session.specs.Sessions.{Replies, Takes, Follows, Whole, refused_book};

use crate::refusal::Refusal;
use book::book::Book;
use faults::Fault;
use lines::command::Command;
use lines::line::Line;
use lines::read::read;
use lines::reply::{Reply, push_reply};
use londex::londex::Londex;
use std::alloc::AllocError;

pub mod refusal;

// A book with its tables, and the line that is not yet ended.
#[derive(Clone, Copy)]
pub struct Session {
    londex: Londex,
    line: Line,
}

// What is printed for a book that is refused.
pub fn refused(fault: Fault) -> Reply
    ensures { result ≡ refused_book fault }
{
    Reply::BookNo(fault.number())
}

// What a line asks for, or why it is refused.
fn answer(londex: &Londex, line: &[u8]) -> Result<Reply, Refusal>
    ensures { Replies (task londex.now.book.outline) line.now (said result) }
{
    match read(line)? {
        Command::Distance(v, w) => Ok(Reply::Distance(londex.distance_of(v, w)?)),
        Command::Gap(a, b) => Ok(Reply::Gap(londex.gap_of(a, b)?)),
    }
}

// The reply to one line.
pub fn reply(londex: &Londex, line: &[u8]) -> Reply
    ensures { Replies (task londex.now.book.outline) line.now result }
{
    answer(londex, line).unwrap_or_else(|refusal| Reply::No(refusal.number()))
}

impl Session {
    pub fn new(book: Book) -> Session
        ensures book { result.londex.book ≡ book }
        ensures follows { Follows (task result.londex.book.outline) result.line [] [] }
    {
        let line = Line::new();
        Session {
            londex: Londex::new(book),
            line,
        }
    }

    // One byte more of what is typed; a line feed ends the line.
    fn take(&mut self, b: u8, out: &mut String) -> Result<(), AllocError>
        ensures tables { self.new.londex ≡ self.old.londex }
        ensures takes { OnOk result (Takes (task self.old.londex.book.outline) b self.old.line self.new.line (string_bytes out.old) (string_bytes out.new)) }
    {
        if b != b'\n' {
            self.line.push(b);
            return Ok(());
        }
        let answer = reply(&self.londex, self.line.bytes());
        self.line.clear();
        push_reply(out, answer)
    }

    // A block of what is typed: the answers to the lines that end in it.
    pub fn feed(&mut self, block: &[u8], out: &mut String) -> Result<(), AllocError>
        ensures tables { self.new.londex ≡ self.old.londex }
        ensures follows { OnOk result ((typed printed : List ℕ) → Follows (task self.old.londex.book.outline) self.old.line typed printed → (more : List ℕ) × Follows (task self.new.londex.book.outline) self.new.line (typed ++ block.now) (printed ++ more) × (string_bytes out.new ≡ string_bytes out.old ++ more)) }
    {
        for b in block {
            self.take(*b, out)?;
        }
        Ok(())
    }

    // The end of what is typed: the answer to a last line without a line feed.
    pub fn finish(self, out: &mut String) -> Result<(), AllocError>
        ensures { OnOk result ((typed printed : List ℕ) → Follows (task self.londex.book.outline) self.line typed printed → (rest : List ℕ) × Whole (task self.londex.book.outline) typed (printed ++ rest) × (string_bytes out.new ≡ string_bytes out.old ++ rest)) }
    {
        if self.line.is_empty() {
            return Ok(());
        }
        let answer = reply(&self.londex, self.line.bytes());
        push_reply(out, answer)?;
        Ok(())
    }
}
