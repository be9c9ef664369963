// The plain types that the definitions in specs/ speak of.
#![tactic(auto)]

pub mod counts;

ghost use Rattle.model.specs.Tasks.{idle};

use few::blank::Blank;

// A step that a plan may take: three sets of facts.
#[derive(Clone, Copy, PartialEq, Eq, Default, Debug)]
pub struct Action {
    pub needs: u64,
    pub adds: u64,
    pub deletes: u64,
}

impl Blank for Action {
    ghost blank = { idle };

    fn blank() -> Action {
        Action::default()
    }
}

// One booking of a card: this action in this round, rounds counted from 0.
#[derive(Clone, Copy, PartialEq, Eq, Debug)]
pub struct Booking {
    pub action: u8,
    pub round: u8,
}

// A state and a round: a standing where the state has one fact of each group, which a sieve that is asked looks up itself.
#[derive(Clone, Copy, PartialEq, Eq)]
pub struct Standing {
    pub state: u64,
    pub t: u8,
}

impl Blank for Standing {
    ghost blank = { record { state = 0; t = 0 } };

    fn blank() -> Standing {
        Standing { state: 0, t: 0 }
    }
}
