// The guarantee test: the pair of normal and strict-only over abnormal.
ghost use Rattle.std.specs.Prelude.{◌≡◌, Decides};
ghost use Rattle.demand.specs.declared.mode.Mode.TheVariants.{Normal, Abnormal};
ghost use Rattle.schedulability.specs.Laws.{Alike};
ghost use Rattle.tests.specs.Guarantee.{guaranteed, Guaranteed};

use crate::response::InTime;
use demand::mode::Mode;
use schedulability::pair::Pair;
use schedulability::strict_only::StrictOnly;
use schedulability::test::Test;
use tasks::set::TaskSet;
use tasks::table::Table;

// Without faults every task is in time, and with fault recovery every strict one.
pub fn guarantee() -> Pair<InTime, StrictOnly<InTime>>
    ensures made { (result.first.mode ≡ Normal) × (result.second.below.mode ≡ Abnormal) }
    ensures means { Alike (⟦<Pair<InTime, StrictOnly<InTime>> as Test>⟧.says result) guaranteed }
{
    Pair {
        first: InTime::new(Mode::Normal),
        second: StrictOnly {
            below: InTime::new(Mode::Abnormal),
        },
    }
}

// Whether the guarantee test says yes.
pub fn is_guaranteed(table: &Table, task: u8, above: TaskSet) -> bool
    ensures value { result ≡ guaranteed table.now task above.bits }
    ensures means { Decides result (Guaranteed table.now task above.bits) }
{
    guarantee().passes(table, task, above)
}
