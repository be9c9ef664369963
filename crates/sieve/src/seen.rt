ghost use Rattle.std.specs.Prelude.{◌≡◌};

use book::book::Book;
use card::Card;

// The subject of a sieve, as it keeps it.
#[derive(Clone, Copy)]
pub struct Seen {
    pub book: Book,
    pub card: Card,
}

impl Seen {
    pub fn new(book: &Book, card: &Card) -> Seen
        ensures book { result.book ≡ book.now }
        ensures card { result.card ≡ card.now }
    {
        Seen {
            book: *book,
            card: *card,
        }
    }
}
