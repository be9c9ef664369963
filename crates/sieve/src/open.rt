ghost use Rattle.std.specs.Prelude.{Option};
ghost use Rattle.model.specs.Sieves.{Subject};
ghost use Rattle.sieve.specs.declared.seen.Seen.{Seen};
ghost use Rattle.sieve.specs.Subjects.{seen_on};
ghost use Rattle.sieve.specs.Kinds.{open_rules, Fresh, Always};
ghost use Rattle.std.proofs.Common.{rules};

use crate::seen::Seen;
use crate::sieve::Sieve;
use book::book::Book;
use card::Card;
use model::Standing;
use std::marker::Model;

// Drops nothing.
#[derive(Clone, Copy)]
pub struct Open {
    seen: Option<Seen>,
}

impl Model for Open {
    ghost Value = { Option Seen };

    ghost view = { λ s. s.seen };

    ghost inverse = { λ seen. record { seen = seen } };
}

impl Open {
    pub fn new() -> Open
        ensures { Fresh open_rules (seen_on result) }
    {
        Open { seen: None }
    }
}

impl Sieve for Open {
    ghost Meaning = { Option Subject };

    ghost meaning = { seen_on };

    ghost rules = { open_rules };

    ghost whole = { Always };

    ghost kept = { Always };

    ghost stands = { Prim.search rules };

    ghost keeps = { Prim.search rules };

    fn begin(&mut self, book: &Book, card: &Card) {
        self.seen = Some(Seen::new(book, card));
    }

    fn drops_standing(&self, _at: Standing) -> bool {
        false
    }

    fn drops_start(&self, _at: Standing, _round: u64) -> bool {
        false
    }

    fn told(&mut self, _at: Standing) {}
}
