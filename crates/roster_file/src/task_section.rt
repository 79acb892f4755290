// The tasks of a file, entered into a table. The times of a task stand as one list in both codecs.
ghost use Rattle.std.specs.Prelude.{◌≡◌, ◌+◌, ◌≤◌, length, take, drop};
ghost use Rattle.roster_file.specs.Entries.{task_bytes, time_bytes, fields, task_width, TaskFits, NoKind, Holds, NotEntered, tasks_in};
ghost use Rattle.std.proofs.Common.{refl, ltb-true};

use crate::fault::{FileFault, Located};
use crate::section::Section;
use std::array;
use tasks::kind::Kind;
use tasks::row::Row;
use tasks::table::Table;

// How many times a task has.
const TIMES: usize = 5;

// A task as it stands in a file, with no bounds yet.
#[derive(Clone, Copy)]
pub(crate) struct TaskEntry {
    pub number: u8,
    pub row: Row,
}

// The tasks of a file, entered into a table.
#[derive(Drop)]
pub(crate) struct Tasks {
    pub table: Table,
}

impl Section for Tasks {
    type Entry = TaskEntry;

    const WIDTH: usize = 2 + 4 * TIMES;

    ghost WIDTH = { task_width };

    ghost encoded = { task_bytes };

    ghost fits = { TaskFits };

    ghost undecodable = { NoKind };

    ghost holds = { λ s es. Holds es s.table.places };

    ghost rejects = { λ s. NotEntered s.table.places };

    ghost placed = { λ s. tasks_in s.table.places };

    ghost narrow = { ltb-true task_width 256 refl };

    ghost wide = { λ _. refl };

    fn start() -> Tasks {
        Tasks {
            table: Table::empty(),
        }
    }

    fn decode(bytes: &[u8], offset: usize) -> Result<TaskEntry, FileFault> {
        let kind = Kind::try_from(bytes[1]).map_err(|_| FileFault::Kind(offset + 1))?;
        let times = array::from_fn(|i| time(bytes, 2 + 4 * i));
        Ok(TaskEntry {
            number: bytes[0],
            row: row_of(kind, times),
        })
    }

    fn keep(&mut self, entry: TaskEntry, offset: usize) -> Result<(), FileFault> {
        self.table
            .enter(entry.number, entry.row)
            .map_err(|fault| Located { offset, fault })?;
        Ok(())
    }

    fn entry_at(&self, place: u8) -> Option<TaskEntry> {
        self.table
            .row(place)
            .map(|row| TaskEntry { number: place, row })
    }

    fn encode(task: TaskEntry, bytes: &mut [u8]) {
        bytes[0] = task.number;
        bytes[1] = u8::from(task.row.kind);
        // not over `chunks_exact_mut`: after it only the length of the bytes is known
        for (i, time) in times_of(task.row).iter().enumerate() {
            let at = 2 + 4 * i;
            bytes[at..at + 4].copy_from_slice(&time.to_le_bytes());
        }
    }
}

// The times of a row in the sequence of the file. No `From`: neither a row nor a list of times is a type of this crate.
fn times_of(row: Row) -> [u32; TIMES]
    ensures { result ≡ fields row }
{
    [
        row.normal,
        row.abnormal,
        row.section,
        row.deadline,
        row.period,
    ]
}

// The row with these times, which stand in the same sequence.
fn row_of(kind: Kind, times: [u32; TIMES]) -> Row
    ensures { (result.kind ≡ kind) × (fields result ≡ times) }
{
    let [normal, abnormal, section, deadline, period] = times;
    Row {
        kind,
        normal,
        abnormal,
        section,
        deadline,
        period,
    }
}

// Four bytes, the lowest first.
fn time(bytes: &[u8], at: usize) -> u32
    requires { at + 4 ≤ length bytes.now }
    ensures { time_bytes result ≡ take 4 (drop at bytes.now) }
{
    u32::from_le_bytes([bytes[at], bytes[at + 1], bytes[at + 2], bytes[at + 3]])
}
