// A priority queue over memory that is handed in: one text for every kind of entry with a total rank.
#![tactic(auto)]

pub mod calls;
pub mod look;
pub mod queue;
pub mod rank;
