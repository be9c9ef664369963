// The search for the first plan that serves a card, through a sieve.
#![tactic(auto)]

mod course;
pub mod outcome;
pub mod search;
mod visit;
