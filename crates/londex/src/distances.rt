ghost use Rattle.std.specs.Prelude.{◌≡◌, ℕ, ◌<◌, length};
ghost use Rattle.sets.specs.Sets.{In};
ghost use Rattle.book.specs.Views.{task};
ghost use Rattle.londex.specs.Answers.{AnswersDistance, ChecksFacts};
ghost use Rattle.londex.specs.Tables.{Charted};
ghost use Rattle.londex.specs.Ways.{graph, entry, Least, Written};

use crate::graph::{arc_table, group_of, led_to};
use crate::refusal::Refusal;
use crate::table::Table;
use book::book::Book;
use sets::contains;
use sets::iter::members_of;

// Writes d at each member of the set.
fn write(row: &mut [Option<u8>; 64], set: u64, d: u8)
    ensures wide { length row.new ≡ 64 }
    ensures written { Written (λ w. In w set) d (entry row.old) (entry row.new) }
{
    for w in members_of(set) {
        row[w as usize] = Some(d);
    }
}

// The least number of arcs from v to each fact: one more arc per turn, until nothing is added. That v is below 64 stands bare:
// facts come as places of an array or a set, and go back to be those; a type for them would be made and taken apart at each call.
fn distances_from(arcs: &[u64; 64], v: u32) -> [Option<u8>; 64]
    requires { v < 64 }
    ensures { (w : ℕ) → w < 64 → Least (graph arcs.now) v w (entry result w) }
{
    let mut row = [None; 64];
    let mut reach = 1 << v;
    let mut fresh = reach;
    // The number is the distance that is written; nothing is indexed by it.
    for d in 0..64 {
        write(&mut row, fresh, d);
        fresh = led_to(arcs, fresh) & !reach;
        if fresh == 0 {
            break;
        }
        reach |= fresh;
    }
    row
}

// Refuses two facts that have no distance.
pub(crate) fn check_facts(book: &Book, v: u32, w: u32) -> Result<(), Refusal>
    ensures { ChecksFacts (task book.now.outline) v w result }
{
    let facts = book.outline.facts as u32;
    if v >= facts || w >= facts {
        return Err(Refusal::UnknownNumber);
    }
    if !contains(group_of(book, v), w) {
        return Err(Refusal::NoCommonGroup);
    }
    Ok(())
}

// The least number of arcs from the fact v to the fact w in their group; None where no way exists.
pub fn distance(book: &Book, v: u32, w: u32) -> Result<Option<u8>, Refusal>
    ensures { AnswersDistance (task book.now.outline) v w result }
{
    book.law();
    check_facts(book, v, w)?;
    let arcs = arc_table(book);
    Ok(distances_from(&arcs, v)[w as usize])
}

// The distance of every two facts of one group.
pub(crate) fn distance_table(book: &Book) -> Table
    ensures { Charted (task book.now.outline) result.rows }
{
    book.law();
    let arcs = arc_table(book);
    let mut rows = [[None; 64]; 64];
    for (v, row) in rows.iter_mut().enumerate() {
        *row = distances_from(&arcs, v as u32);
    }
    Table { rows }
}
