// The flaws of one round, each by the lowest action, pair or bar that shows it.
ghost use Rattle.std.specs.Prelude.{◌≡◌, ◌<◌, length, Decides};
ghost use Rattle.sets.specs.Sets.{In, Part, Lowest};
ghost use Rattle.model.specs.Tasks.{Has, bar};
ghost use Rattle.book.specs.Views.{task};
ghost use Rattle.plan_check.specs.Finds.{Unmet, LowestPair, ClashIn};

use book::book::Book;
use rounds::steps::clash;
use sets::{contains, is_part};

pub fn unknown_action(book: &Book, round: u64) -> Option<u8>
    ensures { Lowest result (λ a. In a round × (Has (task book.now.outline) a → ⊥)) }
{
    let count = book.actions().len() as u8;
    (count..64).find(|a| contains(round, *a as u32))
}

pub fn missing_booking(booked: u64, round: u64) -> Option<u8>
    ensures { Lowest result (λ a. In a booked × (In a round → ⊥)) }
{
    (0..64).find(|a| contains(booked, *a as u32) && !contains(round, *a as u32))
}

// Whether the action is in the round, and needs a fact that the state lacks.
fn is_unmet(book: &Book, state: u64, round: u64, a: u32) -> bool
    ensures { Decides result (Unmet (task book.now.outline) state round a) }
{
    book.actions().get(a as usize).is_some_and(|action| contains(round, a)
        && !is_part(action.needs, state))
}

pub fn unmet_need(book: &Book, state: u64, round: u64) -> Option<u8>
    ensures { Lowest result (Unmet (task book.now.outline) state round) }
{
    let count = book.actions().len() as u8;
    (0..count).find(|a| is_unmet(book, state, round, *a as u32))
}

// Of the pairs in the round that disturb each other, the first whose smaller action is a.
fn pair_from(book: &Book, round: u64, a: u8) -> Option<(u8, u8)>
    requires { a < 64 }
    ensures { LowestPair result (λ i c. (i ≡ a) × ClashIn (task book.now.outline) round i c) }
{
    if !contains(round, a as u32) {
        return None;
    }
    let count = book.actions().len() as u8;
    (a + 1..count)
        .find(|c| contains(round, *c as u32) && clash(book, a as u32, *c as u32))
        .map(|c| (a, c))
}

// The first pair of actions in the round that disturb each other.
pub fn disturbance(book: &Book, round: u64) -> Option<(u8, u8)>
    ensures { LowestPair result (ClashIn (task book.now.outline) round) }
{
    let count = book.actions().len() as u8;
    (0..count).find_map(|a| pair_from(book, round, a))
}

pub fn bar_in(book: &Book, state: u64) -> Option<u8>
    ensures { Lowest result (λ i. (i < length (task book.now.outline).bars) × Part (bar (task book.now.outline) i) state) }
{
    book.bars()
        .iter()
        .position(|bar| is_part(*bar, state))
        .map(|i| i as u8)
}
