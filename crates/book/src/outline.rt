use few::few::Few;
use model::Action;

// What a book says, as read: not yet known to be lawful.
#[derive(Clone, Copy)]
pub struct Outline {
    pub facts: u8,
    pub initial: u64,
    pub goal: u64,
    pub actions: Few<Action, 64>,
    pub groups: Few<u64, 16>,
    pub bars: Few<u64, 8>,
}
