ghost use Rattle.std.specs.Prelude.{◌≡◌, take, Some};
ghost use Rattle.lines.specs.Commands.{spaced};

use few::few::Few;
use std::fmt;
use std::marker::Model;

const MOST_ROUNDS: usize = 32;

// The rounds of a plan, of which there are at most 32.
#[derive(Clone, Copy, Debug)]
pub struct Plan {
    rounds: Few<u64, MOST_ROUNDS>,
}

// Clauses see the rounds.
impl Model for Plan {
    ghost use Rattle.std.specs.Prelude.{ℕ, List};

    ghost Value = { List ℕ };

    ghost view = { λ p. p.rounds };

    ghost inverse = { λ rs. record { rounds = rs } };
}

impl Plan {
    // Of more than 32 rounds the first 32.
    pub fn new(rounds: &[u64]) -> Plan
        ensures { result ≡ take 32 rounds.now }
    {
        Plan {
            rounds: Few::first_of(rounds),
        }
    }
}

// Each round with a space in front.
impl fmt::Display for Plan {
    ghost output = { λ x. Some (spaced x) };

    fn fmt<W: fmt::Write>(&self, f: &mut fmt::Formatter<W>) -> fmt::Result {
        for round in self.rounds.as_slice() {
            write!(f, " {round}")?;
        }
        Ok(())
    }
}
