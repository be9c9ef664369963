ghost use Rattle.std.specs.Prelude.{ℕ, ◌<◌};
ghost use Rattle.sets.specs.Sets.{Marks};
ghost use Rattle.book.specs.Views.{task};
ghost use Rattle.londex.specs.Tables.{Grouped};
ghost use Rattle.londex.specs.Ways.{Together, Step, Led, graph};

use book::book::Book;
use sets::contains;
use sets::iter::members_of;
use std::array;

// The facts that share a group with v; none for a fact without a group.
pub fn group_of(book: &Book, v: u32) -> u64
    ensures { Marks (Together (task book.now.outline) v) result }
{
    let mut found = 0;
    for members in book.groups() {
        if contains(*members, v) {
            found |= *members;
        }
    }
    found
}

// The group of each fact.
pub(crate) fn group_table(book: &Book) -> [u64; 64]
    ensures { Grouped (task book.now.outline) (graph result) }
{
    array::from_fn(|v| group_of(book, v as u32))
}

// The facts to which an arc leads from v.
fn arcs_from(book: &Book, v: u32) -> u64
    ensures { Marks (Step (task book.now.outline) v) result }
{
    let mut added = 0;
    for a in book.actions() {
        if contains(a.deletes, v) {
            added |= a.adds;
        }
    }
    added & group_of(book, v)
}

// The arcs from each fact.
pub(crate) fn arc_table(book: &Book) -> [u64; 64]
    ensures { (v : ℕ) → v < 64 → Marks (Step (task book.now.outline) v) (graph result v) }
{
    array::from_fn(|v| arcs_from(book, v as u32))
}

// All that the members of the set lead to.
pub(crate) fn led_to(table: &[u64; 64], set: u64) -> u64
    ensures { Marks (Led (graph table.now) set) result }
{
    let mut all = 0;
    for x in members_of(set) {
        all |= table[x as usize];
    }
    all
}
