// Tasks with their order, as a drawing takes them, and their jobs.
use samples::roster::Roster;
use samples::row::row;
use schedule::job::Job;
use tasks::fault::EntryFault;
use tasks::kind::Kind;
use tasks::row::Row;
use tasks::standing::Standing;

// A timetable asks nothing of the kind, the normal time and the section.
pub(crate) fn timed(abnormal: u32, deadline: u32, period: u32) -> Row {
    Row {
        deadline,
        ..row(Kind::Tolerable, 1, abnormal, 0, period)
    }
}

// These tasks, highest first.
pub(crate) fn standing_of(tasks: &[(u8, Row)]) -> Result<Standing, EntryFault> {
    Ok(Roster::of(tasks)?.standing())
}

// Task 2 goes before task 1.
pub(crate) fn two_tasks() -> Result<Standing, EntryFault> {
    standing_of(&[
        (2, row(Kind::Strict, 3, 6, 0, 12)),
        (1, row(Kind::Tolerable, 3, 9, 0, 10)),
    ])
}

pub(crate) fn job(task: u8, release: u32, length: u32) -> Job {
    Job {
        task,
        release,
        length,
    }
}
