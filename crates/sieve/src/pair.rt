ghost use Rattle.std.specs.Prelude.{◌≡◌};
ghost use Rattle.sieve.specs.Kinds.{Fresh, Both, both, both_rules, BothWhole, BothKept};
ghost use Rattle.sieve.specs.Laws.{both_law};
ghost use Rattle.std.proofs.Common.{rules};

use crate::sieve::Sieve;
use book::book::Book;
use card::Card;
use model::Standing;

// Two sieves in one, which from its first begin on drops what either drops. A pair of sieves that were used before is new
// all the same, so it knows whether it was begun; no Option of the two would do, since both are there before.
#[derive(Drop)]
pub struct Pair<S, T> {
    first: S,
    second: T,
    begun: bool,
}

impl<S: Sieve, T: Sieve> Pair<S, T> {
    pub fn new(first: S, second: T) -> Pair<S, T>
        ensures first { result.first ≡ first }
        ensures second { result.second ≡ second }
        ensures fresh { Fresh (both_rules S.Sieve.rules T.Sieve.rules) (both result.begun (S.Sieve.meaning result.first) (T.Sieve.meaning result.second)) }
    {
        Pair {
            first,
            second,
            begun: false,
        }
    }
}

impl<S: Sieve, T: Sieve> Sieve for Pair<S, T> {
    ghost Meaning = { Both S.Sieve.Meaning T.Sieve.Meaning };

    ghost meaning = { λ p. both p.begun (S.Sieve.meaning p.first) (T.Sieve.meaning p.second) };

    ghost rules = { both_rules S.Sieve.rules T.Sieve.rules };

    ghost whole = { BothWhole S.Sieve.whole T.Sieve.whole };

    ghost kept = { BothKept S.Sieve.rules T.Sieve.rules S.Sieve.kept T.Sieve.kept };

    ghost stands = { Prim.search rules };

    ghost keeps = { both_law S.Sieve.keeps T.Sieve.keeps };

    fn begin(&mut self, book: &Book, card: &Card) {
        self.begun = true;
        self.first.begin(book, card);
        self.second.begin(book, card);
    }

    fn drops_standing(&self, at: Standing) -> bool {
        self.begun && (self.first.drops_standing(at) || self.second.drops_standing(at))
    }

    fn drops_start(&self, at: Standing, round: u64) -> bool {
        self.begun && (self.first.drops_start(at, round) || self.second.drops_start(at, round))
    }

    fn told(&mut self, at: Standing) {
        self.first.told(at);
        self.second.told(at);
    }
}
