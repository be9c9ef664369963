// Lists of bounded length that lie in the value itself: they ask for no memory, and a copy of them is a copy.
#![tactic(auto)]

pub mod blank;
pub mod few;
