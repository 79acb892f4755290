// One task: its number and its row, within their bounds.
ghost use Rattle.std.specs.Prelude.{◌≡◌, MatchResult};
ghost use Rattle.tasks.specs.Bounds.{Numbered, Times, Window, Section, Lawful, RecordRefused};

use crate::fault::RecordFault;
use crate::row::Row;

// The largest task number.
pub const LAST: u8 = 31;

// The longest time of any kind, in ticks.
pub const LONGEST: u32 = 1_000_000;

#[derive(Clone, Copy, PartialEq, Eq, Debug)]
pub struct Record {
    pub(crate) number: u8,
    pub(crate) row: Row,
    ghost numbered: { Numbered number },
    ghost times: { Times row },
    ghost window: { Window row },
    ghost section: { Section row },
}

impl Record {
    // The record, or the first question that is answered no.
    pub fn new(number: u8, row: Row) -> Result<Record, RecordFault>
        ensures { MatchResult result (λ v. (v.number ≡ number) × (v.row ≡ row) × Lawful number row) (λ f. RecordRefused number row f) }
    {
        if number > LAST {
            return Err(RecordFault::Number(number));
        }
        if row.normal < 1 || row.normal > row.abnormal || row.abnormal > LONGEST {
            return Err(RecordFault::Times(number));
        }
        if row.deadline < 1 || row.deadline > row.period || row.period > LONGEST {
            return Err(RecordFault::Window(number));
        }
        if row.section > row.normal {
            return Err(RecordFault::Section(number));
        }
        Ok(Record { number, row })
    }

    pub fn number(&self) -> u8
        ensures { result ≡ self.now.number }
    {
        self.number
    }

    pub fn row(&self) -> Row
        ensures { result ≡ self.now.row }
    {
        self.row
    }
}
