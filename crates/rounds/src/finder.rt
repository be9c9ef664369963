ghost use Rattle.std.specs.Prelude.{ℕ, Decides};
ghost use Rattle.sets.specs.Sets.{In, Marks};
ghost use Rattle.model.specs.Tasks.{Has};
ghost use Rattle.book.specs.Views.{task};
ghost use Rattle.rounds.specs.Firsts.{Answered, past};
ghost use Rattle.rounds.specs.Joins.{Joins};
ghost use Rattle.rounds.specs.Nodes.{BreaksAny, Doomed, Sought};

use crate::masks::Masks;
use crate::steps::next_state;
use book::book::Book;
use model::Action;
use sets::gather::gather;
use sets::{is_part, meets};

// A node of the search: its rounds have all the actions that are taken, and else only free ones. Those taken alone
// lead to the state `reached`.
#[derive(Clone, Copy)]
struct Node {
    taken: u64,
    free: u64,
    reached: u64,
}

// The actions that can stand in one round with those of s, each by one test of its clashes.
fn joining(masks: &Masks, state: u64, s: u64) -> u64
    ensures { Marks (Joins (task masks.now.book.outline) state s) result }
{
    let actions = masks.book.actions();
    gather(actions.len() as u32, |i| {
        is_part(actions[i as usize].needs, state) && !meets(masks.clashes[i as usize], s)
    })
}

// Whether a bar stands in the state that no free action can break.
fn is_doomed(masks: &Masks, state: u64, free: u64) -> bool
    ensures { Decides result ((k : ℕ) × Doomed (task masks.now.book.outline) state free k) }
{
    masks.book.bars().iter().zip(masks.breakers.iter()).any(|(bar, breakers)| is_part(*bar, state)
        && !meets(*breakers, free))
}

// Whether an action breaks a bar.
fn breaks_any(book: &Book, action: Action) -> bool
    ensures { Decides result (BreaksAny (task book.now.outline) action) }
{
    book.bars().iter().any(|bar| meets(action.deletes, *bar))
}

// The first lawful round of the node from `low` on. The highest free action is left out before it is taken, so the
// numbers ascend. Of the state that the rounds start from, `free` and `reached` have all that counts.
fn seek(masks: &Masks, low: u64, node: Node) -> Option<u64>
    requires { (i : ℕ) → In i node.free → Has (task masks.now.book.outline) i }
    ensures { Sought (task masks.now.book.outline) low node result }
{
    if node.taken | node.free < low || is_doomed(masks, node.reached, node.free) {
        return None;
    }
    let Some(i) = node.free.checked_ilog2() else {
        return Some(node.taken);
    };
    let here = 1 << i;
    let rest = node.free ^ (node.free & here);
    let leaving = Node { free: rest, ..node };
    if let Some(round) = seek(masks, low, leaving) {
        return Some(round);
    }
    let action = masks.book.actions()[i as usize];
    // Where every round without it was tried and failed, an action that breaks no bar does not help.
    if low <= node.taken && !breaks_any(&masks.book, action) {
        return None;
    }
    let taking = Node {
        taken: node.taken | here,
        free: rest ^ (rest & masks.clashes[i as usize]),
        reached: node.reached ^ (node.reached & action.deletes) | action.adds,
    };
    seek(masks, low, taking)
}

// The first lawful round at the state past `after` that has all of `must`, in the order of the rounds' numbers.
pub fn round_after(masks: &Masks, state: u64, must: u64, after: Option<u64>) -> Option<u64>
    ensures { Answered (task masks.now.book.outline) state must (past after) result }
{
    // No map_or: it would put the 0 in a Some for `?` to take off again.
    let low = match after {
        None => 0,
        Some(last) => last.checked_add(1)?,
    };
    let open = joining(masks, state, must);
    if !is_part(must, open) {
        return None;
    }
    let root = Node {
        taken: must,
        free: open ^ (open & must),
        reached: next_state(&masks.book, state, must),
    };
    seek(masks, low, root)
}
