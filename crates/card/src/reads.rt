// What a card tells.
ghost use Rattle.std.specs.Prelude.{◌≡◌, ◌≤◌, length, Decides};
ghost use Rattle.model.specs.Bookings.{Sound, At, BookedFor, AllOf};
ghost use Rattle.card.specs.Views.{ledger_of};

use crate::Card;
use model::Booking;

impl Card {
    // What every card keeps, for callers to build on.
    pub fn law(&self)
        ensures { Sound (ledger_of self.now) }
    {}

    pub fn rounds(&self) -> u8
        ensures { result ≡ (ledger_of self.now).rounds }
    {
        self.rounds
    }

    // The bookings that stand, in the order of booking.
    pub fn bookings(&self) -> &[Booking]
        ensures bookings { result.now ≡ (ledger_of self.now).bookings }
        ensures few { length result.now ≤ 16 }
    {
        self.bookings.as_slice()
    }

    // How many bookings stand.
    pub fn count(&self) -> usize
        ensures { result ≡ length (ledger_of self.now).bookings }
    {
        self.bookings().len()
    }

    // The booking at a place, in the order of booking.
    pub fn booking(&self, i: usize) -> Option<Booking>
        ensures { At (ledger_of self.now).bookings i result }
    {
        self.bookings().get(i).copied()
    }

    // The actions booked for the round, as a set.
    pub fn booked_for(&self, round: u8) -> u64
        ensures { BookedFor (ledger_of self.now).bookings round result }
    {
        self.bookings.actions_in(round)
    }

    // Whether every booking of `other` stands on this card too.
    pub fn has_all_of(&self, other: &Card) -> bool
        ensures { Decides result (AllOf (ledger_of other.now).bookings (ledger_of self.now).bookings) }
    {
        self.bookings.has_all_of(&other.bookings)
    }
}
