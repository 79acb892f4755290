// A test that never says no, so that a no from a layer over it is the layer's own.
ghost use Rattle.std.specs.Prelude.{true};
ghost use Rattle.std.proofs.Common.{rules};

use schedulability::test::Test;
use tasks::set::TaskSet;
use tasks::table::Table;

#[derive(Clone, Copy)]
pub(crate) struct Always;

impl Test for Always {
    ghost says = { λ _ _ _ _. true };

    ghost raise = { Prim.search rules };

    ghost removal = { Prim.search rules };

    fn passes(&mut self, _table: &Table, _task: u8, _above: TaskSet) -> bool {
        true
    }
}
