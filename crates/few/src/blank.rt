ghost use Rattle.std.specs.Prelude.{◌≡◌};

// A type with a value that stands in the places that are not in use. Not std's Default, whose ghost member is a relation: what a
// list of bounded length means needs the value itself.
pub trait Blank: Copy {
    ghost blank: { Self };

    fn blank() -> Self
        ensures { result ≡ blank };
}

impl Blank for u8 {
    ghost blank = { 0 };

    fn blank() -> u8 {
        0
    }
}

impl Blank for u64 {
    ghost blank = { 0 };

    fn blank() -> u64 {
        0
    }
}
