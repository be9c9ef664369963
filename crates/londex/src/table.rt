ghost use Rattle.std.specs.Prelude.{◌≡◌, ◌<◌, [], slice_index_or};

// A distance of every two facts of one group or a gap of every two actions, row by row; None is never. No heap; a struct, since
// the borrow checker has no rule yet for a struct that is made of a book and an array of arrays, as a Londex would be.
#[derive(Clone, Copy, PartialEq, Eq, Debug)]
pub struct Table {
    pub rows: [[Option<u8>; 64]; 64],
}

impl Table {
    pub fn row(&self, i: u32) -> &[Option<u8>; 64]
        requires { i < 64 }
        ensures { result.now ≡ slice_index_or self.now.rows i [] }
    {
        &self.rows[i as usize]
    }
}
