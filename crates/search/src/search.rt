ghost use Rattle.std.specs.Prelude.{Decides};
ghost use Rattle.model.specs.Behaviours.{behaviour};
ghost use Rattle.model.specs.Claims.{Shows, Right, Step, searched, EveryList};
ghost use Rattle.book.specs.Views.{task};
ghost use Rattle.card.specs.Views.{ledger_of};
ghost use Rattle.sieve.specs.Subjects.{subject_of};
ghost use Rattle.search.specs.Courses.{Unknown};
ghost use Rattle.search.specs.Outcomes.{answer_of};

use crate::course::Course;
use crate::outcome::{Counts, Outcome, Refusal};
use crate::visit::visit;
use book::book::Book;
use card::Card;
use model::Standing;
use sieve::sieve::Sieve;

// Whether the book lacks the action of some booking.
fn has_unknown(book: &Book, card: &Card) -> bool
    ensures { Decides result (Unknown (task book.now.outline) (ledger_of card.now).bookings) }
{
    let count = book.actions().len();
    card.bookings()
        .iter()
        .any(|booking| booking.action as usize >= count)
}

// The first plan of the book that serves the card, written on the strip, or none where none does; with the numbers of the walk. A
// refused search leaves sieve and strip as they were.
pub fn search<S: Sieve>(
    book: &Book,
    card: &Card,
    sieve: &mut S,
    strip: &mut [u64],
) -> Result<Outcome, Refusal>
    ensures walk { Shows S.Sieve.rules (subject_of book.now card.now) (S.Sieve.meaning sieve.old) strip.old (answer_of result) (S.Sieve.meaning sieve.new) strip.new }
    ensures right { Right (ledger_of card.now) (task book.now.outline) (answer_of result) strip.new }
    ensures step { Step (ledger_of card.now) (searched (task book.now.outline) (behaviour S.Sieve.rules (S.Sieve.meaning sieve.old)) strip.old (answer_of result) strip.new) (ledger_of card.now) }
    ensures claim { EveryList }
{
    book.law();
    card.law();
    if has_unknown(book, card) {
        return Err(Refusal::UnknownBooking);
    }
    if strip.len() < card.rounds() as usize {
        return Err(Refusal::ShortStrip);
    }
    let mut counts = Counts {
        opened: 0,
        dropped: 0,
    };
    sieve.begin(book, card);
    let start = Standing {
        state: book.outline.initial,
        t: 0,
    };
    if sieve.drops_standing(start) {
        return Ok(Outcome::NoPlan(counts));
    }
    let course = Course::new(book, card);
    if visit(&course, sieve, start, &mut counts, strip) {
        Ok(Outcome::Plan(counts))
    } else {
        Ok(Outcome::NoPlan(counts))
    }
}
