#![tactic(auto)]
// The earliest starts of any project, or a chain of reasons why there are none.
mod bounds;
pub mod chain;
pub mod earliest;
pub mod examples;
pub mod guard;
mod nodes;
mod trace;
