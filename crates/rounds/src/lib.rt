// What a round of actions does, which rounds are lawful, and the next lawful round in the order of their numbers.
#![tactic(auto)]

pub mod finder;
pub mod masks;
pub mod steps;
