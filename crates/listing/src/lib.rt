// The listing of a plan as lines, and as bytes written into space handed in.
#![tactic(auto)]

pub mod line;
pub mod lines;
mod pen;
pub mod text;
