#![tactic(auto)]
// The check of a proposed plan: start bytes and flow words from anyone are accepted exactly when the
// words are a flow of the time network that accounts for the cost of the starts, so that none is cheaper.
pub mod check;
mod nodes;
mod starts;
mod value;
mod words;
