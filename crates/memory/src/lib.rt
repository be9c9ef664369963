// A sieve that also drops what it was told, over any other.
#![tactic(auto)]

mod keep;
pub mod memory;
pub mod table;
