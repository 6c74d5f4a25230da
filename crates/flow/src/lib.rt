#![tactic(auto)]
// Networks, what they answer, and the theory of flows and cuts: no value is above the capacity of a cut,
// and where nothing leads on the two are equal.
pub mod network;
pub mod questions;
pub mod theorems;
pub mod turned;
pub mod unhindered;
pub mod visit;
