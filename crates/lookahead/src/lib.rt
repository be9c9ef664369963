// Two sieves that look ahead to what is due: the goal, and the bookings that are still to come.
#![tactic(auto)]

mod beyond;
mod clashes;
mod deadlines;
pub mod gap;
pub mod goal;
mod outlook;
mod standing;
