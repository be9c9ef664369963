// A card: how many rounds a plan has, and which actions are booked for which of them.
#![tactic(auto)]

// The struct stands alone in its file, so that the definitions in specs/ can name it.
ghost use Rattle.std.specs.Prelude.{◌≤◌};
ghost use Rattle.model.specs.Bookings.{Proper, Once};
ghost use Rattle.card.specs.Tables.{listed, Fit, Clear};

use crate::bookings::Bookings;

mod bookings;
mod calls;
mod reads;
mod refusals;
#[cfg(test)]
mod tests;

pub use crate::refusals::Refusal;

#[derive(Clone, Copy)]
pub struct Card {
    rounds: u8,
    bookings: Bookings,
    ghost short: { rounds ≤ 32 },
    ghost fit: { Fit bookings },
    ghost clear: { Clear bookings },
    ghost proper: { Proper rounds (listed bookings) },
    ghost once: { Once (listed bookings) },
}
