ghost use Rattle.std.specs.Prelude.{◌≡◌};
ghost use Rattle.std.specs.Iterator.{at_most};
ghost use Rattle.sets.specs.Sets.{Split};

// The members of a set that are not yet taken, each of which comes once.
#[derive(Clone, Copy)]
pub struct Members {
    left: u64,
}

pub fn members_of(set: u64) -> Members
    ensures { result.left ≡ set }
{
    Members { left: set }
}

impl Iterator for Members {
    type Item = u32;

    ghost next_gives = { λ s r t. Split s.left r t.left };

    ghost remaining = { λ s. at_most s.left };

    fn next(&mut self) -> Option<u32> {
        if self.left == 0 {
            return None;
        }
        let i = self.left.trailing_zeros();
        self.left ^= 1 << i;
        Some(i)
    }
}
