ghost use Rattle.std.specs.Prelude.{◌≡◌, ℕ, ◌<◌, length, slice_index_or};
ghost use Rattle.sets.specs.Sets.{In, Part};
ghost use Rattle.model.specs.Tasks.{Lawful, idle};
ghost use Rattle.book.specs.Views.{task};
ghost use Rattle.londex.specs.Bounds.{Covers, Shorter, Farther, Waits, Alone, KeptOff};
ghost use Rattle.londex.specs.Tables.{Grouped, Charted, GapsFrom, Spaced};
ghost use Rattle.londex.specs.Ways.{graph, entry};

use crate::bounds::{lower, raise, spare, widen, widest};
use crate::graph::{group_table, led_to};
use crate::table::Table;
use book::book::Book;
use model::Action;
use sets::meets;
use std::array;

// A book with the group of each fact, and the distances within the groups. No heap; every place of the array is in use.
#[derive(Clone, Copy)]
pub(crate) struct Chart<'a> {
    book: &'a Book,
    groups: [u64; 64],
    distances: &'a Table,
    ghost grouped: { ∥ Grouped (task book.now.outline) (graph groups) ∥₁ },
    ghost charted: { ∥ Charted (task book.now.outline) distances.now.rows ∥₁ },
}

impl<'a> Chart<'a> {
    pub(crate) fn new(book: &'a Book, distances: &'a Table) -> Chart<'a>
        requires { Charted (task book.now.outline) distances.now.rows }
        ensures { result.book.now ≡ book.now }
    {
        let groups = group_table(book);
        Chart {
            book,
            groups,
            distances,
        }
    }

    // What the book and the two tables hold, for the proofs of the other methods.
    fn law(&self)
        ensures lawful { Lawful (task self.now.book.now.outline) }
        ensures grouped { Grouped (task self.now.book.now.outline) (graph self.now.groups) }
        ensures charted { Charted (task self.now.book.now.outline) self.now.distances.now.rows }
        ensures shorter { Shorter (graph self.now.groups) self.now.distances.now.rows }
    {
        self.book.law();
    }

    // The bound of the distances from the members of the set, facts of w's group, to w. That w is below 64 stands bare, as in
    // distances_from.
    fn farthest(&self, set: u64, w: u32) -> Option<u8>
        requires to { w < 64 }
        requires within { Part set (graph self.now.groups w) }
        ensures { Covers (Farther self.now.distances.now.rows set w) result }
    {
        self.law();
        widest(set, |v| raise(self.distances.row(v)[w as usize]))
    }

    // How long after x an action that needs w has to wait, for the facts of w's group that x adds or needs.
    fn wait(&self, x: Action, w: u32) -> Option<u8>
        requires { w < 64 }
        ensures { Covers (Waits self.now.distances.now.rows (graph self.now.groups w) x w) result }
    {
        let own = self.groups[w as usize];
        let added = self.farthest(x.adds & own, w);
        let needed = self.farthest(x.needs & own, w);
        widen(added, lower(needed))
    }

    // The wait after x at each fact.
    fn waits_after(&self, x: Action) -> [Option<u8>; 64]
        ensures { (w : ℕ) → w < 64 → Covers (Waits self.now.distances.now.rows (graph self.now.groups w) x w) (entry result w) }
    {
        array::from_fn(|w| self.wait(x, w as u32))
    }

    // The gap from the action a to each action.
    pub(crate) fn gaps_from(&self, a: usize) -> [Option<u8>; 64]
        ensures { GapsFrom (task self.now.book.now.outline) a (entry result) }
    {
        self.law();
        let actions = self.book.actions();
        let Some(x) = actions.get(a) else {
            return [None; 64];
        };
        let near = led_to(&self.groups, x.adds | x.needs);
        let waits = self.waits_after(*x);
        let mut row = array::from_fn(
            |c|
                ensures { c < length actions.entry.now → Covers (KeptOff x.entry.now (slice_index_or actions.entry.now c idle) near (entry waits)) result }
            { actions.get(c).and_then(|y| bound(*x, *y, near, &waits)) },
        );
        row[a] = spare(row[a]);
        row
    }

    // The gap from every action to every action.
    pub(crate) fn gap_table(&self) -> Table
        ensures { Spaced (task self.now.book.now.outline) result.rows }
    {
        self.law();
        let mut rows = [[None; 64]; 64];
        for (a, row) in rows.iter_mut().enumerate() {
            *row = self.gaps_from(a);
        }
        Table { rows }
    }
}

// What single facts forbid to y after x.
fn alone(x: Action, y: Action) -> Option<u8>
    ensures { Covers (Alone x y) result }
{
    if meets(x.deletes, y.needs) {
        Some(2)
    } else if meets(x.adds, y.deletes) {
        Some(1)
    } else {
        Some(0)
    }
}

// What is forbidden to y after x, where row has the waits after x, and near the facts that have one.
fn bound(x: Action, y: Action, near: u64, row: &[Option<u8>; 64]) -> Option<u8>
    ensures { Covers (KeptOff x y near (entry row.now)) result }
{
    let needed = widest(y.needs & near, |w| row[w as usize]);
    let added = lower(widest(y.adds & near, |w| row[w as usize]));
    widen(alone(x, y), widen(needed, added))
}
