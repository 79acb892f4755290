// The faults of a record and of its entry into a table, and of a space that is too short.
ghost use Rattle.std.specs.Prelude.{◌≡◌};
ghost use Rattle.tasks.specs.declared.fault.EntryFault.TheVariants.{Invalid};
ghost use Rattle.tasks.specs.Refusals.{record_tells, entry_tells, space_tells};

use crate::refusal::{Fault, Layer, Refusal};
use thiserror::Error;

// The first question of a record that is answered no, with the task number given.
#[derive(Clone, Copy, PartialEq, Eq, Debug, Error)]
pub enum RecordFault {
    // 1
    #[error("the task number {0} is above 31")]
    Number(u8),
    // 2
    #[error("the times of task {0} are not 1 ≤ N ≤ A ≤ 1,000,000")]
    Times(u8),
    // 3
    #[error("the window of task {0} is not 1 ≤ D ≤ T ≤ 1,000,000")]
    Window(u8),
    // 4
    #[error("the section of task {0} is longer than its normal time")]
    Section(u8),
}

impl Fault for RecordFault {
    ghost tells = { record_tells };

    fn refusal(&self) -> Refusal {
        let (number, task) = match self {
            RecordFault::Number(task) => (1, *task),
            RecordFault::Times(task) => (2, *task),
            RecordFault::Window(task) => (3, *task),
            RecordFault::Section(task) => (4, *task),
        };
        Refusal::new(number, Layer::Record, task as usize)
    }
}

// Why a record did not enter a table.
#[derive(Clone, Copy, PartialEq, Eq, Debug, Error)]
pub enum EntryFault {
    // 1 to 4: the record's own fault
    #[error("{0}")]
    Invalid(RecordFault),
    // 5
    #[error("the number {0} has a task already")]
    Taken(u8),
}

// By hand: a derived `From` does not say which case it makes, and contracts name it.
impl From<RecordFault> for EntryFault {
    ghost from_gives = { λ e r. r ≡ Invalid e };

    fn from(e: RecordFault) -> EntryFault {
        EntryFault::Invalid(e)
    }
}

impl Fault for EntryFault {
    ghost tells = { entry_tells };

    fn refusal(&self) -> Refusal {
        match self {
            EntryFault::Invalid(fault) => fault.refusal(),
            EntryFault::Taken(task) => Refusal::new(5, Layer::Roster, *task as usize),
        }
    }
}

// 20
#[derive(Clone, Copy, PartialEq, Eq, Debug, Error)]
#[error("the space is shorter than the {needed} bytes needed")]
pub struct SpaceFault {
    pub needed: usize,
}

impl Fault for SpaceFault {
    ghost tells = { space_tells };

    fn refusal(&self) -> Refusal {
        Refusal::new(20, Layer::File, self.needed)
    }
}
