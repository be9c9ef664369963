ghost use Rattle.std.specs.Prelude.{Option};
ghost use Rattle.model.specs.Sieves.{Subject};
ghost use Rattle.sieve.specs.Kinds.{Fresh, Always};
ghost use Rattle.lookahead.specs.Kinds.{gap_rules, GapJust, Real};
ghost use Rattle.lookahead.specs.declared.clashes.Clashes.{Clashes};
ghost use Rattle.lookahead.specs.Views.{clashes_on};
ghost use Rattle.lookahead.specs.Laws.{gap_law};
ghost use Rattle.std.proofs.Common.{rules};

use crate::clashes::Clashes;
use book::book::Book;
use card::Card;
use model::Standing;
use sieve::sieve::Sieve;
use std::marker::Model;

// Drops a start with an action that is closer to a coming booking than their gap. Goal is its twin, of another question: one
// type for both takes a trait of rules, tables and questions, which is longer than the two.
#[derive(Clone, Copy)]
pub struct Gap {
    begun: Option<Clashes>,
}

impl Model for Gap {
    ghost Value = { Option Clashes };

    ghost view = { λ s. s.begun };

    ghost inverse = { λ begun. record { begun = begun } };
}

impl Gap {
    pub fn new() -> Gap
        ensures fresh { Fresh gap_rules (clashes_on result) }
        ensures just { GapJust }
    {
        Gap { begun: None }
    }
}

impl Sieve for Gap {
    ghost Meaning = { Option Subject };

    ghost meaning = { clashes_on };

    ghost rules = { gap_rules };

    ghost whole = { Always };

    ghost kept = { Real };

    ghost stands = { Prim.search rules };

    ghost keeps = { gap_law };

    fn begin(&mut self, book: &Book, card: &Card) {
        self.begun = Some(Clashes::new(book, card));
    }

    fn drops_standing(&self, _at: Standing) -> bool {
        false
    }

    fn drops_start(&self, at: Standing, round: u64) -> bool {
        self.begun
            .as_ref()
            .is_some_and(|clashes| clashes.are_met(at, round))
    }

    fn told(&mut self, _at: Standing) {}
}
