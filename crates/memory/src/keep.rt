ghost use Rattle.std.specs.Prelude.{◌≡◌, Decides};
ghost use Rattle.model.specs.Sieves.{Grew};
ghost use Rattle.sieve.specs.Subjects.{subject_of};
ghost use Rattle.memory.specs.Keeping.{keeps};

use book::book::Book;
use card::Card;
use sieve::seen::Seen;

// Whether what was hopeless for the former subject is so for book and card: no booking was released.
pub(crate) fn stays(former: &Seen, book: &Book, card: &Card) -> bool
    ensures decides { Decides result (Grew (subject_of former.now.book former.now.card) (subject_of book.now card.now)) }
    ensures value { result ≡ keeps (subject_of former.now.book former.now.card) (subject_of book.now card.now) }
{
    former.book == *book && former.card.rounds() == card.rounds() && card.has_all_of(&former.card)
}
