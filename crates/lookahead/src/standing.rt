ghost use Rattle.std.specs.Prelude.{Decides};
ghost use Rattle.model.specs.Plans.{OneOfEach};
ghost use Rattle.book.specs.Views.{task};

use book::book::Book;
use sets::share_one;

// Whether the state has exactly one fact of each group.
pub(crate) fn is_standing(book: &Book, state: u64) -> bool
    ensures { Decides result (OneOfEach (task book.now.outline) state) }
{
    book.groups().iter().all(|group| share_one(state, *group))
}
