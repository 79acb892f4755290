// The interface of schedulability tests, and layers that are tests over any tests.
#![tactic(auto)]

pub mod fault;
pub mod pair;
pub mod proper;
pub mod reserve;
pub mod strict_only;
pub mod test;
