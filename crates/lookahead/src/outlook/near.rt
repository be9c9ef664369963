ghost use Rattle.std.specs.Prelude.{Decides};
ghost use Rattle.sets.specs.Sets.{Marks};
ghost use Rattle.model.specs.Tasks.{Has};
ghost use Rattle.model.specs.Sieves.{Near};
ghost use Rattle.book.specs.Views.{task};
ghost use Rattle.lookahead.specs.Outlooks.{ahead};
ghost use Rattle.lookahead.specs.Tables.{Crowded};

use crate::beyond::is_beyond;
use crate::outlook::Outlook;
use model::Booking;
use sets::gather::gather;

impl Outlook<'_> {
    // Whether the action a now is closer to the booking than their gap, and not the booked step itself. A booking whose
    // action the book lacks, or whose round is past, is passed over.
    fn crowds(&self, a: u32, y: Booking) -> bool
        requires { Has (task self.now.londex.now.book.outline) a }
        ensures { Decides result (Crowded (task self.now.londex.now.book.outline) self.now.londex.now.gaps.rows self.now.t a y) }
    {
        self.londex.law();
        (y.action as usize) < self.londex.book.actions().len()
            && y.round >= self.t
            && !(a == y.action as u32 && y.round == self.t)
            && is_beyond(self.londex.gaps.row(a)[y.action as usize], y.round - self.t)
    }

    // Whether the action a is near.
    fn is_near(&self, a: u32) -> bool
        requires { Has (task self.now.londex.now.book.outline) a }
        ensures { Decides result (Near (ahead self.now) self.now.t a) }
    {
        self.londex.law();
        self.card.bookings().iter().any(|y| self.crowds(a, *y))
    }

    // The actions that are near a coming booking.
    pub(crate) fn near_actions(&self) -> u64
        ensures { Marks (Near (ahead self.now) self.now.t) result }
    {
        self.londex.law();
        gather(self.londex.book.actions().len() as u32, |a| self.is_near(a))
    }
}
