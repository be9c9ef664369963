ghost use Rattle.std.specs.Prelude.{◌≡◌, [], if◌then◌else◌, Some, None};
ghost use Rattle.sieve.specs.Subjects.{subject_of, seen_on};
ghost use Rattle.memory.specs.Lists.{among};
ghost use Rattle.memory.specs.Keeping.{keeps_on};
ghost use Rattle.memory.specs.Memories.{same_told, remember, AllLost, LostFor};

use crate::keep::stays;
use book::book::Book;
use card::Card;
use few::few::Few;
use model::Standing;
use sieve::seen::Seen;

const ROOM: usize = 128;

// The last standings that were told of a subject, the oldest first. All of them are hopeless for it.
#[derive(Clone, Copy)]
pub struct Table {
    pub seen: Option<Seen>,
    pub known: Few<Standing, ROOM>,
    ghost lost: { ∥ AllLost (seen_on seen) known ∥₁ },
}

impl Table {
    pub fn new() -> Table
        ensures seen { result.seen ≡ None }
        ensures known { result.known ≡ [] }
    {
        Table {
            seen: None,
            known: Few::new(),
        }
    }

    pub fn has(&self, told: Standing) -> bool
        ensures { result ≡ among same_told told self.now.known }
    {
        self.known.contains(&told)
    }

    // With one more standing; a repeat keeps its place.
    pub fn noted(self, told: Standing) -> Table
        requires { LostFor (seen_on self.seen) told }
        ensures seen { result.seen ≡ self.seen }
        ensures known { result.known ≡ remember self.known told }
    {
        if self.has(told) {
            return self;
        }
        let mut known = self.known;
        known.push_last(told);
        Table {
            seen: self.seen,
            known,
        }
    }

    // Whether what was told is hopeless for book and card too.
    fn outlasts(&self, book: &Book, card: &Card) -> bool
        ensures { result ≡ keeps_on (seen_on self.now.seen) (subject_of book.now card.now) }
    {
        self.seen
            .as_ref()
            .is_some_and(|former| stays(former, book, card))
    }

    // With book and card as the subject. What was told stays where no booking was released since; else it is forgotten.
    pub fn begun(self, book: &Book, card: &Card) -> Table
        ensures seen { seen_on result.seen ≡ Some (subject_of book.now card.now) }
        ensures known { result.known ≡ (if keeps_on (seen_on self.seen) (subject_of book.now card.now) then self.known else []) }
    {
        let known = if self.outlasts(book, card) {
            self.known
        } else {
            Few::new()
        };
        Table {
            seen: Some(Seen::new(book, card)),
            known,
        }
    }
}
