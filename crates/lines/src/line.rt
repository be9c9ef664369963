ghost use Rattle.std.specs.Prelude.{◌≡◌, [], ◌∷◌, ◌++◌, take, length, ◌≤◌, Decides};

use few::few::Few;
use std::marker::Model;

const ROOM: usize = 16;

// The line so far. No command is longer than 13 bytes, so what is past 16 is not kept.
#[derive(Clone, Copy)]
pub struct Line {
    bytes: Few<u8, ROOM>,
}

// Clauses see the bytes that are kept.
impl Model for Line {
    ghost use Rattle.std.specs.Prelude.{ℕ, List};

    ghost Value = { List ℕ };

    ghost view = { λ l. l.bytes };

    ghost inverse = { λ bs. record { bytes = bs } };
}

impl Line {
    pub fn new() -> Line
        ensures { result ≡ [] }
    {
        Line { bytes: Few::new() }
    }

    pub fn push(&mut self, b: u8)
        ensures { self.new ≡ take 16 (self.old ++ (b ∷ [])) }
    {
        if !self.bytes.is_full() {
            self.bytes.push(b);
        }
    }

    pub fn clear(&mut self)
        ensures { self.new ≡ [] }
    {
        self.bytes.clear();
    }

    pub fn bytes(&self) -> &[u8]
        ensures bytes { result.now ≡ self.now }
        ensures few { length result.now ≤ 16 }
    {
        self.bytes.as_slice()
    }

    pub fn is_empty(&self) -> bool
        ensures { Decides result (self.now ≡ []) }
    {
        self.bytes.is_empty()
    }
}
