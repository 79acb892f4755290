// Tasks, tables of tasks, sets and orders of tasks, and how a refusal is told.
#![tactic(auto)]

pub mod change;
pub mod entry;
pub mod fault;
pub mod kind;
pub mod order;
pub mod record;
pub mod refusal;
pub mod row;
pub mod set;
pub mod standing;
pub mod table;
pub mod tasks_of;
pub mod walk;
