#![tactic(auto)]
// The vocabulary of planning: slots and days, prices, lags, refusals, what a project answers, and
// what its earliest, cheapest and latest start lists are by definition.
pub mod floors;
pub mod lag;
pub mod plans;
pub mod price;
pub mod project;
pub mod refusal;
pub mod time;
