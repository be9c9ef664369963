ghost use Rattle.std.specs.Prelude.{◌≡◌, ℕ, ◌<◌};
ghost use Rattle.sets.specs.Sets.{In};
ghost use Rattle.londex.specs.Bounds.{wider, lowered, raised, Spared, Under, Widest};

use sets::iter::members_of;

// The greater of two bounds; None is above every number.
pub(crate) fn widen(k: Option<u8>, m: Option<u8>) -> Option<u8>
    ensures { result ≡ wider k m }
{
    k.zip(m).map(|(x, y)| x.max(y))
}

pub(crate) fn lower(k: Option<u8>) -> Option<u8>
    ensures { result ≡ lowered k }
{
    k.map(|n| n.saturating_sub(1))
}

pub(crate) fn raise(k: Option<u8>) -> Option<u8>
    requires { Under 64 k }
    ensures { result ≡ raised k }
{
    k.map(|n| n + 1)
}

// The bound of an action against itself: one round may hold it once. A match of one number, which no method says plainer.
pub(crate) fn spare(k: Option<u8>) -> Option<u8>
    ensures { Spared k result }
{
    match k {
        Some(1) => Some(0),
        _ => k,
    }
}

// The widest of the bounds of the members of the set.
pub(crate) fn widest<F: Fn(u32) -> Option<u8>>(set: u64, bound: F) -> Option<u8>
    requires { (i : ℕ) → i < 64 → In i set → F.pre bound i }
    ensures { Widest (F.post bound) (λ i. In i set) result }
{
    let mut k = Some(0);
    for i in members_of(set) {
        k = widen(k, bound(i));
    }
    k
}
