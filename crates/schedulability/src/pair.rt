// A layer over two tests.
ghost use Rattle.schedulability.specs.Layers.{both};
ghost use Rattle.schedulability.specs.Proper.{guarded};
ghost use Rattle.schedulability.specs.LayersLemmas.{both_raise, both_removal};

use crate::proper::is_proper;
use crate::test::Test;
use tasks::set::TaskSet;
use tasks::table::Table;

// Says yes when both tests below it do.
#[derive(Drop)]
pub struct Pair<L, R> {
    pub first: L,
    pub second: R,
}

impl<L: Test, R: Test> Test for Pair<L, R> {
    ghost says = { λ s. guarded (both (L.Test.says s.first) (R.Test.says s.second)) };

    ghost raise = { λ s. both_raise (L.Test.says s.first) (R.Test.says s.second) (L.Test.raise s.first) (R.Test.raise s.second) };

    ghost removal = { λ s. both_removal (L.Test.says s.first) (R.Test.says s.second) (L.Test.removal s.first) (R.Test.removal s.second) };

    fn passes(&mut self, table: &Table, task: u8, above: TaskSet) -> bool {
        is_proper(table, task, above)
            && self.first.passes(table, task, above)
            && self.second.passes(table, task, above)
    }
}
