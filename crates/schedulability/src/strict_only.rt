// A layer that asks only about strict tasks.
ghost use Rattle.schedulability.specs.Layers.{strictly};
ghost use Rattle.schedulability.specs.Proper.{guarded};
ghost use Rattle.schedulability.specs.LayersLemmas.{strictly_raise, strictly_removal};

use crate::proper::is_proper;
use crate::test::Test;
use tasks::kind::Kind;
use tasks::set::TaskSet;
use tasks::table::Table;

// Says yes to a tolerable task, and hands on the question for a strict one.
#[derive(Drop)]
pub struct StrictOnly<L> {
    pub below: L,
}

impl<L: Test> Test for StrictOnly<L> {
    ghost says = { λ s. guarded (strictly (L.Test.says s.below)) };

    ghost raise = { λ s. strictly_raise (L.Test.says s.below) (L.Test.raise s.below) };

    ghost removal = { λ s. strictly_removal (L.Test.says s.below) (L.Test.removal s.below) };

    fn passes(&mut self, table: &Table, task: u8, above: TaskSet) -> bool {
        let Some(row) = table.row(task) else {
            return false;
        };
        is_proper(table, task, above)
            && (row.kind == Kind::Tolerable || self.below.passes(table, task, above))
    }
}
