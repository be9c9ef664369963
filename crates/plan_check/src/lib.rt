// The check of a finished plan: a strip has for each round the set of its actions.
#![tactic(auto)]

ghost use Rattle.book.specs.Views.{task};
ghost use Rattle.card.specs.Views.{ledger_of};
ghost use Rattle.plan_check.specs.Flaws.{Checks};
ghost use Rattle.plan_check.specs.Finds.{RoundChecks};

use crate::finders::{bar_in, disturbance, missing_booking, unknown_action, unmet_need};
use crate::flaws::Flaw;
use book::book::Book;
use card::Card;
use model::Standing;
use rounds::steps::next_state;
use sets::is_part;

mod finders;
pub mod flaws;

// The state after the round, or the round's first flaw.
fn check_round(book: &Book, card: &Card, at: Standing, round: u64) -> Result<u64, Flaw>
    ensures { RoundChecks (task book.now.outline) (ledger_of card.now).bookings at.t at.state round result }
{
    // No `?`: each finder answers what it finds, or none, and each flaw is another variant.
    if let Some(a) = unknown_action(book, round) {
        return Err(Flaw::UnknownAction(at.t, a));
    }
    if let Some(a) = missing_booking(card.booked_for(at.t), round) {
        return Err(Flaw::MissingBooking(at.t, a));
    }
    if let Some(a) = unmet_need(book, at.state, round) {
        return Err(Flaw::UnmetNeed(at.t, a));
    }
    if let Some((a, c)) = disturbance(book, round) {
        return Err(Flaw::Disturbance(at.t, a, c));
    }
    let after = next_state(book, at.state, round);
    if let Some(i) = bar_in(book, after) {
        return Err(Flaw::BarAfter(at.t, i));
    }
    Ok(after)
}

// Whether the strip serves the card, or else its first flaw: round by round, and number by number within a round.
pub fn check(book: &Book, card: &Card, strip: &[u64]) -> Result<(), Flaw>
    ensures { Checks (task book.now.outline) (ledger_of card.now) strip.now result }
{
    card.law();
    let rounds = card.rounds();
    if strip.len() != rounds as usize {
        return Err(Flaw::StripLength);
    }
    let mut state = book.outline.initial;
    for (t, round) in strip.iter().enumerate() {
        let at = Standing { state, t: t as u8 };
        state = check_round(book, card, at, *round)?;
    }
    if !is_part(book.outline.goal, state) {
        return Err(Flaw::GoalMissed(rounds));
    }
    Ok(())
}
