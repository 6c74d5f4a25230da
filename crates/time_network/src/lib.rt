#![tactic(auto)]
// The time network of any project, as a network that answers quickly.
pub mod agreement;
mod entering;
pub mod held;
pub mod index;
mod indexing;
mod leaving;
mod making;
pub mod network;
pub mod place;
mod points;
