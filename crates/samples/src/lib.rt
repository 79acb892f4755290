// What the test programs share: rows, tasks taken up one after another, and numbers drawn alike in every run.
#![tactic(auto)]

pub mod draws;
pub mod roster;
pub mod row;
