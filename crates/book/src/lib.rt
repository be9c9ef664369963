// The book of a device: its facts, actions, groups and bars, known to be lawful.
#![tactic(auto)]

pub mod book;
pub mod outline;
