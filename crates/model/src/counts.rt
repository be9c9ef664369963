ghost use Rattle.std.specs.Prelude.{Some};
ghost use Rattle.model.specs.Counting.{counted};

use std::fmt;

// How many standings a walk opened, and how many drops it counted. Each stops at the greatest u64.
#[derive(Clone, Copy, PartialEq, Eq, Debug)]
pub struct Counts {
    pub opened: u64,
    pub dropped: u64,
}

impl fmt::Display for Counts {
    ghost output = { λ x. Some (counted x) };

    fn fmt<W: fmt::Write>(&self, f: &mut fmt::Formatter<W>) -> fmt::Result {
        write!(f, "opened {} dropped {}", self.opened, self.dropped)
    }
}
