// Jobs, and what a timetable tells of each.

// One piece of work of a task, in ticks.
#[derive(Clone, Copy, PartialEq, Eq, Debug)]
pub struct Job {
    pub task: u8,
    // the tick from which it may run
    pub release: u32,
    // how many ticks it runs
    pub length: u32,
}

// When a job is done. A finish can pass 32 bits, since jobs wait for one another.
#[derive(Clone, Copy, PartialEq, Eq, Debug)]
pub struct Finish {
    pub finish: u64,
    // how many ticks past its due time, 0 for a job in time
    pub lateness: u64,
}
