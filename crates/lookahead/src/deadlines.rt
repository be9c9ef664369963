ghost use Rattle.std.specs.Prelude.{◌≡◌, ◌≤◌};
ghost use Rattle.sets.specs.Sets.{Marks};
ghost use Rattle.model.specs.Sieves.{Late};
ghost use Rattle.sieve.specs.Subjects.{subject_of};
ghost use Rattle.lookahead.specs.Tables.{Lates};
ghost use Rattle.lookahead.specs.Tests.{goal_test};

use crate::outlook::Outlook;
use crate::standing::is_standing;
use book::book::Book;
use card::Card;
use londex::londex::Londex;
use model::Standing;
use sets::meets;
use sieve::seen::Seen;
use std::array;

// For each round that a standing of the card may have, the facts that are late there, worked out once so that a question is a
// lookup. No heap; a place for each such round of the longest card.
// Clashes is its twin: a type for both takes a trait of what is marked and what is asked, which is longer than the two.
#[derive(Clone, Copy)]
pub struct Deadlines {
    pub seen: Seen,
    pub late: [u64; 33],
    ghost marked: { ∥ Lates (subject_of seen.book seen.card) late ∥₁ },
}

impl Deadlines {
    ghost use Rattle.lookahead.specs.Views.{seen_as};

    pub fn new(book: &Book, card: &Card) -> Deadlines
        ensures book { result.seen.book ≡ book.now }
        ensures card { result.seen.card ≡ card.now }
    {
        card.law();
        let londex = Londex::new(*book);
        Deadlines {
            seen: Seen::new(book, card),
            late: array::from_fn(
                |t|
                    ensures { t ≤ (subject_of londex.book card.entry.now).card.rounds → Marks (Late (subject_of londex.book card.entry.now) t) result }
                {
                    if t <= card.rounds() as usize {
                        Outlook {
                            londex: &londex,
                            card,
                            t: t as u8,
                        }
                        .late_facts()
                    } else {
                        0
                    }
                },
            ),
        }
    }

    // Whether the state stands at round t with a fact that is late there. What is dearest is asked last.
    pub fn are_missed(&self, at: Standing) -> bool
        ensures { result ≡ goal_test (seen_as self.now.seen) at.state at.t }
    {
        self.seen.book.law();
        self.seen.card.law();
        if at.t > self.seen.card.rounds() {
            return false;
        }
        meets(at.state, self.late[at.t as usize]) && is_standing(&self.seen.book, at.state)
    }
}
