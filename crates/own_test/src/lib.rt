// How to write a schedulability test of one's own, with public calls only: few_above.rt is the test, specs/Few.antt says what it means,
// and specs/Fewer.antt shows that its meaning keeps both laws. Every layer then takes it as it takes any other test; layered.rt puts
// several over it.
#![tactic(auto)]

pub mod few_above;
pub mod layered;
