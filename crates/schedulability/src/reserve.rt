// A layer that keeps a part of every deadline in reserve.
ghost use Rattle.std.specs.Prelude.{◌≡◌, ◌<◌, ◌≤◌, None, MatchResult, slice_index_or};
ghost use Rattle.schedulability.specs.Layers.{longer, reserved, shorter};
ghost use Rattle.schedulability.specs.Proper.{guarded};
ghost use Rattle.tasks.specs.Bounds.{longest};
ghost use Rattle.schedulability.specs.LayersLemmas.{reserved_raise, reserved_removal};
ghost use Rattle.std.proofs.Common.{rules};

use crate::fault::{Rejected, TestFault};
use crate::proper::is_proper;
use crate::test::Test;
use tasks::change::Change;
use tasks::record::LONGEST;
use tasks::row::Row;
use tasks::set::TaskSet;
use tasks::table::Table;

// Asks about the table whose deadlines are shorter by the reserve, and says no where the task's own is not above the reserve.
#[derive(Drop)]
pub struct Reserve<L> {
    reserve: u32,
    below: L,
    ghost bound: { reserve ≤ longest },
}

impl<L> Reserve<L> {
    // A reserve that is too long gives the test back.
    pub fn new(reserve: u32, below: L) -> Result<Reserve<L>, Rejected<L>>
        ensures { MatchResult result
            (λ v. (v.reserve ≡ reserve) × (v.below ≡ below) × (reserve ≤ longest))
            (λ e. (e.fault ≡ TestFault.Reserve reserve) × (e.test ≡ below) × (longest < reserve)) }
    {
        if reserve > LONGEST {
            return Err(Rejected {
                fault: TestFault::Reserve(reserve),
                test: below,
            });
        }
        Ok(Reserve { reserve, below })
    }

    // The test below, which need not be one that can be let go.
    pub fn into_below(self) -> L
        ensures { result ≡ self.below }
    {
        let Reserve { reserve: _, below } = self;
        below
    }
}

impl<L: Test> Test for Reserve<L> {
    ghost says = { λ s. guarded (reserved s.reserve (L.Test.says s.below)) };

    ghost raise = { λ s. reserved_raise s.reserve (L.Test.says s.below) (L.Test.raise s.below) };

    ghost removal = { λ s. reserved_removal s.reserve (L.Test.says s.below) (L.Test.removal s.below) };

    fn passes(&mut self, table: &Table, task: u8, above: TaskSet) -> bool {
        let by = Shorter {
            reserve: self.reserve,
        };
        is_proper(table, task, above)
            && by.leaves_time(table, task)
            && self.below.passes(&table.changed(&by), task, above)
    }
}

// Takes the reserve off a deadline, and leaves at least 1.
#[derive(Clone, Copy)]
struct Shorter {
    reserve: u32,
}

impl Shorter {
    // Whether the deadline of the task is above the reserve.
    fn leaves_time(&self, table: &Table, task: u8) -> bool
        ensures { result ≡ longer self.now.reserve (slice_index_or table.now.places task None) }
    {
        table
            .row(task)
            .is_some_and(|row| row.deadline > self.reserve)
    }
}

impl Change for Shorter {
    ghost changed = { λ s. shorter s.reserve };

    ghost bounded = { Prim.search rules };

    fn change(&self, row: Row) -> Row {
        Row {
            deadline: row.deadline.saturating_sub(self.reserve).max(1),
            ..row
        }
    }
}
