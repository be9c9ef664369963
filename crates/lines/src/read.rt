ghost use Rattle.std.specs.Prelude.{◌≡◌, ℕ, ◌<◌, ◌≤◌, [], ◌∷◌, length, ◌≢◌, slice_index};
ghost use Rattle.lines.specs.Commands.{Decimal, Spaced, Commands, Reads};

use crate::command::{Command, NotACommand};

const MOST_DIGITS: usize = 5;

// One to five digits, with no needless zero in front.
fn digits(s: &[u8]) -> Result<u32, NotACommand>
    ensures { Reads (Decimal s.now) result }
{
    if s.is_empty() || s.len() > MOST_DIGITS {
        return Err(NotACommand);
    }
    if s[0] == b'0' && s.len() > 1 {
        return Err(NotACommand);
    }
    let mut n: u32 = 0;
    for b in s {
        if !b.is_ascii_digit() {
            return Err(NotACommand);
        }
        n = n * 10 + (*b - b'0') as u32;
    }
    Ok(n)
}

fn number(s: &[u8]) -> Result<u32, NotACommand>
    ensures { Reads (λ n. Spaced s.now (n ∷ [])) result }
{
    match s {
        [b' ', rest @ ..] => digits(rest),
        _ => Err(NotACommand),
    }
}

// The place of the first space past the first byte, or the length.
fn split(s: &[u8]) -> usize
    ensures within { result ≤ length s.now }
    ensures past { 0 < length s.now → 0 < result }
    ensures before { (k : ℕ) → 0 < k → k < result → slice_index s.now k ≢ 32 }
    ensures found { result < length s.now → slice_index s.now result ≡ 32 }
{
    s.iter()
        .skip(1)
        .position(|b| *b == b' ')
        .map_or(s.len(), |i| i + 1)
}

fn pair(s: &[u8]) -> Result<(u32, u32), NotACommand>
    ensures { Reads (λ (p : ℕ × ℕ). Spaced s.now (p.0 ∷ p.1 ∷ [])) result }
{
    let i = split(s);
    let a = number(&s[..i])?;
    let b = number(&s[i..])?;
    Ok((a, b))
}

pub fn read(line: &[u8]) -> Result<Command, NotACommand>
    ensures { Commands line.now result }
{
    let Some((first, rest)) = line.split_first() else {
        return Err(NotACommand);
    };
    match *first as char {
        'd' => {
            let (v, w) = pair(rest)?;
            Ok(Command::Distance(v, w))
        }
        'g' => {
            let (a, b) = pair(rest)?;
            Ok(Command::Gap(a, b))
        }
        _ => Err(NotACommand),
    }
}
