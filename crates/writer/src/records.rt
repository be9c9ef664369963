// The writers of records, each a list of fields.
ghost use Rattle.std.specs.Prelude.{◌≡◌, ℕ, ◌+◌, ◌≤◌, List, ◌++◌, length};
ghost use Rattle.reader.specs.Written.{counts_bytes, ends_bytes, set_bytes, action_bytes};

use crate::fields::{bit, put_field};
use crate::sizes::LONGEST;
use book::book::Book;
use few::few::Few;
use model::Action;

pub fn counts(book: &Book) -> [u8; 4]
    ensures { result ≡ counts_bytes book.now.outline }
{
    [
        book.outline.facts,
        book.actions().len() as u8,
        book.groups().len() as u8,
        book.bars().len() as u8,
    ]
}

pub fn put_ends(file: &mut Few<u8, LONGEST>, initial: u64, goal: u64)
    requires { length file.old + length (ends_bytes initial goal) ≤ 1813 }
    ensures { file.new ≡ file.old ++ ends_bytes initial goal }
{
    file.push(bit(1, initial) + bit(2, goal));
    put_field(file, initial);
    put_field(file, goal);
}

// A kind of record that stands in a table. Not the reader's trait of this name: what is read and what is written have different laws.
pub trait Row: Copy {
    ghost format: { Self → List ℕ };

    fn put(self, file: &mut Few<u8, LONGEST>)
        requires { length file.old + length (format self) ≤ 1813 }
        ensures { file.new ≡ file.old ++ format self };
}

impl Row for Action {
    ghost format = { action_bytes };

    fn put(self, file: &mut Few<u8, LONGEST>) {
        file.push(bit(1, self.needs) + bit(2, self.adds) + bit(4, self.deletes));
        put_field(file, self.needs);
        put_field(file, self.adds);
        put_field(file, self.deletes);
    }
}

impl Row for u64 {
    ghost format = { set_bytes };

    fn put(self, file: &mut Few<u8, LONGEST>) {
        file.extend_from_slice(&self.to_le_bytes());
    }
}
