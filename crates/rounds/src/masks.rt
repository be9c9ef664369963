ghost use Rattle.std.specs.Prelude.{◌≡◌};
ghost use Rattle.sets.specs.Sets.{Marks};
ghost use Rattle.book.specs.Views.{task};
ghost use Rattle.rounds.specs.Tables.{Clash, Breaks, Clashes, Breakers};

use crate::steps::disturb;
use book::book::Book;
use sets::gather::gather;
use sets::meets;
use std::array;

// A book with two tables that the finder reads in the place of its actions: the set of the actions that each action
// clashes with, and the set of those that break each bar. Filled once per book; the type says what they hold.
// Arrays, since each place is in use: the place of an action or a bar that the book lacks is the empty set.
#[derive(Clone, Copy)]
pub struct Masks {
    pub book: Book,
    pub clashes: [u64; 64],
    pub breakers: [u64; 8],
    ghost clash: { ∥ Clashes (task book.outline) clashes ∥₁ },
    ghost breach: { ∥ Breakers (task book.outline) breakers ∥₁ },
}

// The actions that clash with the action i; none with one that the book lacks. Not by gather and clash, which would look up both actions at
// each turn and take half as long again.
fn clashing(book: &Book, i: u32) -> u64
    ensures { Marks (Clash (task book.now.outline) i) result }
{
    let actions = book.actions();
    let Some(action) = actions.get(i as usize) else {
        return 0;
    };
    let own = *action;
    let mut set = 0;
    for (j, other) in actions.iter().enumerate() {
        if j != i as usize && disturb(own, *other) {
            set |= 1 << j;
        }
    }
    set
}

// The actions that break the bar k; a bar that the book lacks has no fact.
fn breaking(book: &Book, k: usize) -> u64
    ensures { Marks (Breaks (task book.now.outline) k) result }
{
    let actions = book.actions();
    let Some(bar) = book.bars().get(k) else {
        return 0;
    };
    gather(actions.len() as u32, |j| {
        meets(actions[j as usize].deletes, *bar)
    })
}

impl Masks {
    pub fn new(book: Book) -> Masks
        ensures { result.book ≡ book }
    {
        book.law();
        Masks {
            book,
            clashes: array::from_fn(|i| clashing(&book, i as u32)),
            breakers: array::from_fn(|k| breaking(&book, k)),
        }
    }
}
