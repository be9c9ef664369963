ghost use Rattle.std.specs.Prelude.{◌≤◌, length};

use faults::FieldFault;

// The bytes of a file, and how many of them are read.
#[derive(Drop)]
pub struct Reader<'a> {
    pub bytes: &'a [u8],
    pub pos: usize,
    ghost inside: { pos ≤ length bytes.now },
}

// The readers of single fields.
impl<'a> Reader<'a> {
    ghost use Rattle.std.specs.Prelude.{◌≡◌};
    ghost use Rattle.reader.specs.Formats.{Took, read_byte, read_count, read_map, read_set, read_optional};

    pub fn new(bytes: &'a [u8]) -> Reader<'a>
        ensures bytes { result.bytes.now ≡ bytes.now }
        ensures pos { result.pos ≡ 0 }
    {
        Reader { bytes, pos: 0 }
    }

    fn byte(&mut self) -> Result<u8, FieldFault>
        ensures { Took read_byte self.old result self.new }
    {
        let b = *self
            .bytes
            .get(self.pos)
            .ok_or(FieldFault::CutShort(self.pos))?;
        self.pos += 1;
        Ok(b)
    }

    pub fn count(&mut self, low: u8, high: u8) -> Result<u8, FieldFault>
        ensures { Took (read_count low high) self.old result self.new }
    {
        let at = self.pos;
        let n = self.byte()?;
        if !(low..=high).contains(&n) {
            return Err(FieldFault::OutOfLimits(at));
        }
        Ok(n)
    }

    pub fn map(&mut self, limit: u8) -> Result<u8, FieldFault>
        ensures { Took (read_map limit) self.old result self.new }
    {
        let at = self.pos;
        let map = self.byte()?;
        if map >= limit {
            return Err(FieldFault::UnknownBit(at));
        }
        Ok(map)
    }

    // `facts` is an argument of the readers of sets: this reader reads it itself, so a field of it would be an Option until then.
    pub fn set(&mut self, facts: u8) -> Result<u64, FieldFault>
        ensures { Took (read_set facts) self.old result self.new }
    {
        let at = self.pos;
        let bytes = self.bytes[at..]
            .first_chunk::<8>()
            .ok_or(FieldFault::CutShort(at))?;
        let s = u64::from_le_bytes(*bytes);
        self.pos = at + 8;
        if s == 0 {
            return Err(FieldFault::EmptySet(at));
        }
        if facts < 64 && s >> facts != 0 {
            return Err(FieldFault::UnknownFact(at));
        }
        Ok(s)
    }

    // The set, where its bit of the map stands; else the empty set, and no byte is read.
    pub fn optional(&mut self, stands: bool, facts: u8) -> Result<u64, FieldFault>
        ensures { Took (read_optional stands facts) self.old result self.new }
    {
        if stands { self.set(facts) } else { Ok(0) }
    }
}
