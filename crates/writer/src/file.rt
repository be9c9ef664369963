// The bytes of a book's file.
ghost use Rattle.std.specs.Prelude.{◌≡◌, ◌+◌, ◌≤◌, ◌++◌, length};
ghost use Rattle.std.specs.List.{flat_map};
ghost use Rattle.reader.specs.Written.{written};

use crate::records::{Row, counts, put_ends};
use crate::sizes::LONGEST;
use book::book::Book;
use few::few::Few;

fn put_rows<T: Row>(file: &mut Few<u8, LONGEST>, rows: &[T])
    requires { length file.old + length (flat_map T.format rows.now) ≤ 1813 }
    ensures { file.new ≡ file.old ++ flat_map T.format rows.now }
{
    for row in rows {
        row.put(file);
    }
}

pub fn file(book: &Book) -> Few<u8, LONGEST>
    ensures { result ≡ written book.now.outline }
{
    let mut file = Few::first_of(&counts(book));
    put_ends(&mut file, book.outline.initial, book.outline.goal);
    put_rows(&mut file, book.actions());
    put_rows(&mut file, book.groups());
    put_rows(&mut file, book.bars());
    file
}
