// Timetables: which job lists one is drawn for, and the finish and the lateness of each job.
#![tactic(auto)]

pub mod drawing;
pub mod entry;
pub mod fault;
pub mod questions;
