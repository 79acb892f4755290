// What a user of the queue writes: entries of two kinds, and a sort through a queue over lent memory.
#![tactic(auto)]

pub mod entry;
pub mod sort;
#[cfg(test)]
mod tests;
