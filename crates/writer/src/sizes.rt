// How many bytes a book's file has.
ghost use Rattle.std.specs.Prelude.{◌≡◌, ◌≤◌, length};
ghost use Rattle.std.specs.List.{flat_map};
ghost use Rattle.reader.specs.Written.{field_bytes, action_bytes, written};

use book::book::Book;
use model::Action;

// The most bytes that a book's file has.
pub const LONGEST: usize = 1813;

fn field_length(s: u64) -> usize
    ensures { result ≡ length (field_bytes s) }
{
    if s == 0 { 0 } else { 8 }
}

fn action_length(a: Action) -> usize
    ensures { result ≡ length (action_bytes a) }
{
    1 + field_length(a.needs) + field_length(a.adds) + field_length(a.deletes)
}

fn actions_length(actions: &[Action]) -> usize
    requires { length actions.now ≤ 64 }
    ensures { result ≡ length (flat_map action_bytes actions.now) }
{
    let mut sum = 0;
    for a in actions {
        sum += action_length(*a);
    }
    sum
}

// Counted and not written: a caller who sizes a buffer waits for no file.
pub fn file_length(book: &Book) -> usize
    ensures { result ≡ length (written book.now.outline) }
{
    let head = 5 + field_length(book.outline.initial) + field_length(book.outline.goal);
    let actions = actions_length(book.actions());
    let sets = 8 * (book.groups().len() + book.bars().len());
    head + actions + sets
}
