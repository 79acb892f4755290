// The four schedulability tests, and the guarantee test that is made of two of them.
#![tactic(auto)]

pub mod guarantee;
pub mod load;
pub mod response;
pub mod sections;
