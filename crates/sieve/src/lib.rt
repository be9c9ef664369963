// Sieves: what cuts hopeless standings and starts away from a search. The law that every sieve keeps, and those that hold no table.
#![tactic(auto)]

pub mod open;
pub mod pair;
pub mod seen;
pub mod sieve;
