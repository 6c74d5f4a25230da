#![tactic(auto)]
// Layers that lie on any project and are projects themselves: a calendar of shut slots, and what
// lateness costs.
pub mod calendar;
pub mod examples;
pub mod lateness;
pub mod layered;
