#![tactic(auto)]
// What the trials of planners share: small projects drawn from bytes, bare and under layers; start lists
// tried one by one; and memory that shows what was written to it.
pub mod drawn;
pub mod lists;
pub mod memory;
pub mod stacks;
