// The calls that change a card, and what refuses them.
ghost use Rattle.std.specs.Prelude.{◌≡◌};
ghost use Rattle.model.specs.Ledgers.{opening, book, release, stretch, Turns, Computed};
ghost use Rattle.card.specs.Views.{ledger_of, verdict_of};
ghost use Rattle.card.specs.Law.{EveryList};

use crate::bookings::Bookings;
use crate::{Card, Refusal};
use model::Booking;

const LAST_ACTION: u32 = 63;

const MOST_ROUNDS: u32 = 32;

impl Card {
    pub fn new() -> Card
        ensures fresh { ledger_of result ≡ opening }
        ensures computed { Computed }
        ensures law { EveryList }
    {
        Card {
            rounds: 0,
            bookings: Bookings::none(),
        }
    }

    pub fn book(&mut self, action: u32, round: u32) -> Result<(), Refusal>
        ensures { Turns (ledger_of self.old) (book action round) (verdict_of result) (ledger_of self.new) }
    {
        if action > LAST_ACTION {
            return Err(Refusal::ActionTooHigh);
        }
        if round >= self.rounds as u32 {
            return Err(Refusal::RoundTooLate);
        }
        if self.bookings.find(action, round).is_some() {
            return Err(Refusal::BookedAlready);
        }
        if self.bookings.is_full() {
            return Err(Refusal::Full);
        }
        let booking = Booking {
            action: action as u8,
            round: round as u8,
        };
        self.bookings.push(booking);
        Ok(())
    }

    pub fn release(&mut self, action: u32, round: u32) -> Result<(), Refusal>
        ensures { Turns (ledger_of self.old) (release action round) (verdict_of result) (ledger_of self.new) }
    {
        let Some(place) = self.bookings.find(action, round) else {
            return Err(Refusal::NotBooked);
        };
        self.bookings.remove(place);
        Ok(())
    }

    pub fn stretch(&mut self, rounds: u32) -> Result<(), Refusal>
        ensures { Turns (ledger_of self.old) (stretch rounds) (verdict_of result) (ledger_of self.new) }
    {
        if rounds > MOST_ROUNDS {
            return Err(Refusal::TooLong);
        }
        if self.bookings.reaches(rounds) {
            return Err(Refusal::Stranded);
        }
        self.rounds = rounds as u8;
        Ok(())
    }
}
