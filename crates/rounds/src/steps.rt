ghost use Rattle.std.specs.Prelude.{◌≡◌, Decides};
ghost use Rattle.model.specs.Plans.{Disturb, next, Clear, Round};
ghost use Rattle.book.specs.Views.{task};
ghost use Rattle.rounds.specs.Joins.{Joins, Loose};
ghost use Rattle.rounds.specs.Tables.{Clash};

use book::book::Book;
use model::Action;
use sets::iter::members_of;
use sets::{is_part, meets};

// Whether one of the two deletes a fact that the other needs or adds.
pub fn disturb(a: Action, c: Action) -> bool
    ensures { Decides result (Disturb a c) }
{
    meets(a.deletes, c.needs | c.adds) || meets(c.deletes, a.needs | a.adds)
}

pub fn next_state(book: &Book, state: u64, round: u64) -> u64
    ensures { result ≡ next (task book.now.outline) state round }
{
    let actions = book.actions();
    let mut adds = 0;
    let mut deletes = 0;
    for i in members_of(round) {
        if let Some(action) = actions.get(i as usize) {
            adds |= action.adds;
            deletes |= action.deletes;
        }
    }
    state ^ (state & deletes) | adds
}

// Whether no bar is contained in the state.
pub fn is_clear(book: &Book, state: u64) -> bool
    ensures { Decides result (Clear (task book.now.outline) state) }
{
    book.bars().iter().all(|bar| !is_part(*bar, state))
}

// Whether the actions i and j are two of the book that disturb each other.
pub fn clash(book: &Book, i: u32, j: u32) -> bool
    ensures { Decides result (Clash (task book.now.outline) i j) }
{
    let actions = book.actions();
    match (actions.get(i as usize), actions.get(j as usize)) {
        (Some(a), Some(c)) => i != j && disturb(*a, *c),
        _ => false,
    }
}

// Whether the book has the action i, and it can stand in one round with the others of s.
fn joins(book: &Book, state: u64, s: u64, i: u32) -> bool
    ensures { Decides result (Joins (task book.now.outline) state s i) }
{
    let ready = book
        .actions()
        .get(i as usize)
        .is_some_and(|action| is_part(action.needs, state));
    ready && members_of(s).all(|j| !clash(book, i, j))
}

// Whether the actions of s can stand in one round, but for the bars.
fn is_loose(book: &Book, state: u64, s: u64) -> bool
    ensures { Decides result (Loose (task book.now.outline) state s) }
{
    members_of(s).all(|i| joins(book, state, s, i))
}

// Whether the round is lawful at the state.
pub fn is_lawful(book: &Book, state: u64, round: u64) -> bool
    ensures { Decides result (Round (task book.now.outline) state round) }
{
    is_loose(book, state, round) && is_clear(book, next_state(book, state, round))
}
