// Reads and writes roster files: the tasks of a machine and the order of their priorities, as bytes.
#![tactic(auto)]

pub mod fault;
mod order_section;
pub mod read;
mod reader;
pub mod round_trip;
mod section;
mod task_section;
pub mod write;
mod writer;
