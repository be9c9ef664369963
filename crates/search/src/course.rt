ghost use Rattle.search.specs.Charges.{Charged};

use book::book::Book;
use card::Card;
use model::Standing;
use rounds::finder::round_after;
use rounds::masks::Masks;
use std::array;

// What a walk goes over, worked out once: the book with the masks of its actions, the card, and the actions booked for each round: an array,
// since each place is in use, the empty set where nothing is booked.
#[derive(Clone, Copy)]
pub(crate) struct Course {
    pub(crate) masks: Masks,
    pub(crate) card: Card,
    pub(crate) must: [u64; 32],
    ghost charged: { ∥ Charged card must ∥₁ },
}

impl Course {
    ghost use Rattle.std.specs.Prelude.{◌≡◌, ◌<◌};
    ghost use Rattle.rounds.specs.Firsts.{past};
    ghost use Rattle.search.specs.Courses.{subject_on, NextFrom};

    pub(crate) fn new(book: &Book, card: &Card) -> Course
        ensures book { result.masks.book ≡ book.now }
        ensures card { result.card ≡ card.now }
    {
        Course {
            masks: Masks::new(*book),
            card: *card,
            must: array::from_fn(|t| card.booked_for(t as u8)),
        }
    }

    // The first lawful round of the standing past `after` that holds the bookings of its round.
    pub(crate) fn open_round(&self, at: Standing, after: Option<u64>) -> Option<u64>
        requires { at.t < 32 }
        ensures { NextFrom (subject_on self.now) at.state at.t (past after) result }
    {
        round_after(&self.masks, at.state, self.must[at.t as usize], after)
    }
}
