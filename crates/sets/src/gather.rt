ghost use Rattle.std.specs.Prelude.{ℕ, ◌<◌, ◌≤◌};
ghost use Rattle.sets.specs.Sets.{Gathered};

// The set of the numbers below n that pass the test.
pub fn gather<F: Fn(u32) -> bool>(n: u32, test: F) -> u64
    requires few { n ≤ 64 }
    requires callable { (i : ℕ) → i < n → F.pre test i }
    ensures { Gathered (F.post test) n result }
{
    let mut set = 0;
    for i in 0..n {
        if test(i) {
            set |= 1 << i;
        }
    }
    set
}
