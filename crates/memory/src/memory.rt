ghost use Rattle.std.specs.Prelude.{◌≡◌};
ghost use Rattle.sieve.specs.Subjects.{seen_on};
ghost use Rattle.sieve.specs.Kinds.{Fresh};
ghost use Rattle.memory.specs.Keeping.{KeepsJust};
ghost use Rattle.memory.specs.declared.table.Table.{Table};
ghost use Rattle.memory.specs.Memories.{Parts, Remembered, remembered, memory_rules, MemoryWhole, MemoryKept};
ghost use Rattle.memory.specs.Noting.{memory_law};
ghost use Rattle.std.proofs.Common.{rules};

use crate::table::Table;
use book::book::Book;
use card::Card;
use model::Standing;
use sieve::sieve::Sieve;
use std::marker::Model;

// Drops what the sieve below drops, and the last 128 different standings that it was told.
#[derive(Drop)]
pub struct Memory<S> {
    below: S,
    table: Table,
}

impl<S> Model for Memory<S> {
    ghost Value = { Parts S Table };

    ghost view = { λ s. record { below = s.below; table = s.table } };
}

impl<S: Sieve> Memory<S> {
    pub fn new(below: S) -> Memory<S>
        ensures below { result.below ≡ below }
        ensures fresh { Fresh (memory_rules S.Sieve.rules) (remembered (seen_on result.table.seen) result.table.known (S.Sieve.meaning result.below)) }
        ensures just { KeepsJust }
    {
        Memory {
            below,
            table: Table::new(),
        }
    }
}

impl<S: Sieve> Sieve for Memory<S> {
    ghost Meaning = { Remembered S.Sieve.Meaning };

    ghost meaning = { λ p. remembered (seen_on p.table.seen) p.table.known (S.Sieve.meaning p.below) };

    ghost rules = { memory_rules S.Sieve.rules };

    ghost whole = { MemoryWhole S.Sieve.whole };

    ghost kept = { MemoryKept S.Sieve.rules S.Sieve.kept };

    ghost stands = { Prim.search rules };

    ghost keeps = { memory_law S.Sieve.keeps };

    fn begin(&mut self, book: &Book, card: &Card) {
        self.below.begin(book, card);
        self.table = self.table.begun(book, card);
    }

    fn drops_standing(&self, at: Standing) -> bool {
        self.table.seen.is_some() && (self.below.drops_standing(at) || self.table.has(at))
    }

    fn drops_start(&self, at: Standing, round: u64) -> bool {
        self.table.seen.is_some() && self.below.drops_start(at, round)
    }

    fn told(&mut self, at: Standing) {
        self.below.told(at);
        self.table = self.table.noted(at);
    }
}
