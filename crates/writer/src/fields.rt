// The writers of single fields, behind what stands already.
ghost use Rattle.std.specs.Prelude.{◌≡◌, ◌+◌, ◌≤◌, ◌++◌, length};
ghost use Rattle.reader.specs.Written.{field_bytes, bit as BIT};

use crate::sizes::LONGEST;
use few::few::Few;

// A set that may be empty: then it has no bytes.
pub fn put_field(file: &mut Few<u8, LONGEST>, s: u64)
    requires { length file.old + length (field_bytes s) ≤ 1813 }
    ensures { file.new ≡ file.old ++ field_bytes s }
{
    if s != 0 {
        file.extend_from_slice(&s.to_le_bytes());
    }
}

// What a set adds to the map of its record.
pub fn bit(value: u8, s: u64) -> u8
    ensures { result ≡ BIT value s }
{
    if s == 0 { 0 } else { value }
}
