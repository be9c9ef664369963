ghost use Rattle.std.specs.Prelude.{◌≡◌, ◌<◌};
ghost use Rattle.sets.specs.Sets.{Marks};
ghost use Rattle.model.specs.Sieves.{Near};
ghost use Rattle.sieve.specs.Subjects.{subject_of};
ghost use Rattle.lookahead.specs.Tables.{Nears};
ghost use Rattle.lookahead.specs.Tests.{gap_test};

use crate::outlook::Outlook;
use crate::standing::is_standing;
use book::book::Book;
use card::Card;
use londex::londex::Londex;
use model::Standing;
use sets::meets;
use sieve::seen::Seen;
use std::array;

// For each of the card's rounds, the actions that are near a coming booking there, worked out once so that a question is a
// lookup. No heap; a place for each round that a card may have.
// Deadlines is its twin: a type for both takes a trait of what is marked and what is asked, which is longer than the two.
#[derive(Clone, Copy)]
pub struct Clashes {
    pub seen: Seen,
    pub near: [u64; 32],
    ghost marked: { ∥ Nears (subject_of seen.book seen.card) near ∥₁ },
}

impl Clashes {
    ghost use Rattle.lookahead.specs.Views.{seen_as};

    pub fn new(book: &Book, card: &Card) -> Clashes
        ensures book { result.seen.book ≡ book.now }
        ensures card { result.seen.card ≡ card.now }
    {
        card.law();
        let londex = Londex::new(*book);
        Clashes {
            seen: Seen::new(book, card),
            near: array::from_fn(
                |t|
                    ensures { t < (subject_of londex.book card.entry.now).card.rounds → Marks (Near (subject_of londex.book card.entry.now) t) result }
                {
                    if t < card.rounds() as usize {
                        Outlook {
                            londex: &londex,
                            card,
                            t: t as u8,
                        }
                        .near_actions()
                    } else {
                        0
                    }
                },
            ),
        }
    }

    // Whether the state stands at round t, and the round there has an action that is near a coming booking. What is
    // dearest is asked last.
    pub fn are_met(&self, at: Standing, round: u64) -> bool
        ensures { result ≡ gap_test (seen_as self.now.seen) at.state at.t round }
    {
        self.seen.book.law();
        self.seen.card.law();
        if at.t >= self.seen.card.rounds() {
            return false;
        }
        meets(round, self.near[at.t as usize]) && is_standing(&self.seen.book, at.state)
    }
}
