// The priority order of the tasks of a table under any schedulability test: found by `plan`, looked at by `judge`.
#![tactic(auto)]

pub mod fault;
pub mod judge;
pub mod plan;
