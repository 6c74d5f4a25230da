#![tactic(auto)]
// The starts of least cost of any project, the earliest or the latest of them, from a minimum cut of its
// time network.
pub mod plans;
mod reading;
pub mod side;
