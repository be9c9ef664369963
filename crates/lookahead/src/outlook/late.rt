ghost use Rattle.std.specs.Prelude.{◌<◌, Decides};
ghost use Rattle.sets.specs.Sets.{Marks};
ghost use Rattle.model.specs.Sieves.{Late};
ghost use Rattle.book.specs.Views.{task};
ghost use Rattle.londex.specs.Ways.{entry};
ghost use Rattle.lookahead.specs.Outlooks.{ahead};
ghost use Rattle.lookahead.specs.Tables.{Missed};

use crate::beyond::some_beyond;
use crate::outlook::Outlook;
use londex::graph::group_of;
use model::Booking;
use sets::gather::gather;

impl Outlook<'_> {
    // Whether the booking needs a fact of the group that is too far, by the row of distances. One whose action the book
    // lacks, or whose round is past, is passed over.
    fn misses(&self, row: &[Option<u8>; 64], own: u64, y: Booking) -> bool
        ensures { Decides result (Missed (task self.now.londex.now.book.outline) (entry row.now) own self.now.t y) }
    {
        if y.round < self.t {
            return false;
        }
        let left = y.round - self.t;
        self.londex
            .book
            .actions()
            .get(y.action as usize)
            .is_some_and(|action| some_beyond(row, action.needs & own, left))
    }

    // Whether the fact v is late. That v is below 64 stands bare: it comes from gather as a place of a set, and indexes a row.
    fn is_late(&self, v: u32) -> bool
        requires { v < 64 }
        ensures { Decides result (Late (ahead self.now) self.now.t v) }
    {
        self.londex.law();
        let own = group_of(&self.londex.book, v);
        let row = self.londex.distances.row(v);
        let left = self.card.rounds().saturating_sub(self.t);
        some_beyond(row, self.londex.book.outline.goal & own, left)
            || self
                .card
                .bookings()
                .iter()
                .any(|y| self.misses(row, own, *y))
    }

    // The facts that are late.
    pub(crate) fn late_facts(&self) -> u64
        ensures { Marks (Late (ahead self.now) self.now.t) result }
    {
        self.londex.law();
        gather(64, |v| self.is_late(v))
    }
}
