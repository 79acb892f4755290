// Draws timetables and holds each to what it is to be: a case worked by hand, refusals, thousands of small job lists against a drawing
// that goes tick by tick, and the longest job lists against finishes known beforehand. Ends with an error at the first difference.
#![tactic(auto)]

mod lists;
mod long;
mod random;
mod refused;
mod rosters;
mod ticks;
mod worked;

fn run(rt: &HostRuntime) -> anyhow::Result<()> {
    worked::draw_case(rt)?;
    refused::refuse_all(rt)?;
    random::draw_many(rt)?;
    long::draw_longest(rt)
}

fn main(rt: HostRuntime) -> anyhow::Result<()> {
    run(&rt)
}
