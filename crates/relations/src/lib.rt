#![tactic(auto)]
// The eight time relations between two activities: their letters, and the lag that each one gives.
pub mod meaning;
pub mod relation;
