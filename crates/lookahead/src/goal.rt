ghost use Rattle.std.specs.Prelude.{Option};
ghost use Rattle.model.specs.Sieves.{Subject};
ghost use Rattle.sieve.specs.Kinds.{Fresh, Always};
ghost use Rattle.lookahead.specs.Kinds.{goal_rules, GoalJust, Real};
ghost use Rattle.lookahead.specs.declared.deadlines.Deadlines.{Deadlines};
ghost use Rattle.lookahead.specs.Views.{deadlines_on};
ghost use Rattle.lookahead.specs.Laws.{goal_law};
ghost use Rattle.std.proofs.Common.{rules};

use crate::deadlines::Deadlines;
use book::book::Book;
use card::Card;
use model::Standing;
use sieve::sieve::Sieve;
use std::marker::Model;

// Drops a standing with a fact that is too far from one of its group that is due. Gap is its twin; it says why they are two.
#[derive(Clone, Copy)]
pub struct Goal {
    begun: Option<Deadlines>,
}

impl Model for Goal {
    ghost Value = { Option Deadlines };

    ghost view = { λ s. s.begun };

    ghost inverse = { λ begun. record { begun = begun } };
}

impl Goal {
    pub fn new() -> Goal
        ensures fresh { Fresh goal_rules (deadlines_on result) }
        ensures just { GoalJust }
    {
        Goal { begun: None }
    }
}

impl Sieve for Goal {
    ghost Meaning = { Option Subject };

    ghost meaning = { deadlines_on };

    ghost rules = { goal_rules };

    ghost whole = { Always };

    ghost kept = { Real };

    ghost stands = { Prim.search rules };

    ghost keeps = { goal_law };

    fn begin(&mut self, book: &Book, card: &Card) {
        self.begun = Some(Deadlines::new(book, card));
    }

    fn drops_standing(&self, at: Standing) -> bool {
        self.begun
            .as_ref()
            .is_some_and(|deadlines| deadlines.are_missed(at))
    }

    fn drops_start(&self, _at: Standing, _round: u64) -> bool {
        false
    }

    fn told(&mut self, _at: Standing) {}
}
