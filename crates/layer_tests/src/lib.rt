// What the tests and the layers answer: questions that each refuses before its own rule, and values worked out by hand.
#![tactic(auto)]

#[cfg(test)]
mod always;
#[cfg(test)]
mod openings;
#[cfg(test)]
mod reserves;
#[cfg(test)]
mod tables;
#[cfg(test)]
mod values;
