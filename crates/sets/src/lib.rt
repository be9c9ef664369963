// Sets of numbers below 64, each a u64: the bit of value 2^i stands for the member i.
#![tactic(auto)]

pub mod gather;
pub mod iter;

ghost use Rattle.std.specs.Prelude.{◌≡◌, Decides};
ghost use Rattle.sets.specs.Sets.{has, Part, Meet, One, AtMostOne};

// Whether i is a member; no number from 64 on is one.
pub fn contains(s: u64, i: u32) -> bool
    ensures { result ≡ has i s }
{
    i < 64 && (s >> i) % 2 == 1
}

pub fn is_part(a: u64, b: u64) -> bool
    ensures { Decides result (Part a b) }
{
    a & b == a
}

pub fn meets(a: u64, b: u64) -> bool
    ensures { Decides result (Meet a b) }
{
    a & b != 0
}

// Whether a and b have exactly one common member.
pub fn share_one(a: u64, b: u64) -> bool
    ensures { Decides result (One a b) }
{
    (a & b).count_ones() == 1
}

pub fn share_at_most_one(a: u64, b: u64) -> bool
    ensures { Decides result (AtMostOne a b) }
{
    (a & b).count_ones() <= 1
}
