ghost use Rattle.std.specs.Prelude.{Decides};
ghost use Rattle.model.specs.Gaps.{Closer};
ghost use Rattle.londex.specs.Bounds.{SomeCloser};
ghost use Rattle.londex.specs.Ways.{entry};

use sets::iter::members_of;

// Whether a distance or a gap is above n; None is above every number.
pub(crate) fn is_beyond(far: Option<u8>, n: u8) -> bool
    ensures { Decides result (Closer far n) }
{
    far.is_none_or(|d| d > n)
}

// Whether some member of the set is farther than n, by a row of distances.
pub(crate) fn some_beyond(row: &[Option<u8>; 64], set: u64, n: u8) -> bool
    ensures { Decides result (SomeCloser (entry row.now) set n) }
{
    members_of(set).any(|w| is_beyond(row[w as usize], n))
}
