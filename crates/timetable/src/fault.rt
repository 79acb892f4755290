// Why no timetable was drawn.
ghost use Rattle.timetable.specs.Refusals.{timetable_tells};

use tasks::refusal::{Fault, Layer, Refusal};
use thiserror::Error;

#[derive(Clone, Copy, PartialEq, Eq, Debug, Error)]
pub enum TimetableFault {
    // 8, with the length of the job list
    #[error("{0} jobs are more than 4,096, or more than one of the lists has room for")]
    Space(usize),
    // 9, like the next two with the index of the job
    #[error("the task of job {0} is not on the roster")]
    Task(usize),
    // 10
    #[error("the release of job {0} is above 1,000,000,000, or its length is not from 1 to A")]
    Times(usize),
    // 11
    #[error("the release of job {0} is less than T from that of a job of its task listed before it")]
    Distance(usize),
}

impl Fault for TimetableFault {
    ghost tells = { timetable_tells };

    fn refusal(&self) -> Refusal {
        let (number, place) = match self {
            TimetableFault::Space(jobs) => (8, *jobs),
            TimetableFault::Task(index) => (9, *index),
            TimetableFault::Times(index) => (10, *index),
            TimetableFault::Distance(index) => (11, *index),
        };
        Refusal::new(number, Layer::Timetable, place)
    }
}
