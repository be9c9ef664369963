// Distances between the facts of a group, and the gaps between actions that follow from them.
#![tactic(auto)]

mod bounds;
mod chart;
pub mod distances;
pub mod gaps;
pub mod graph;
pub mod londex;
pub mod refusal;
pub mod table;
