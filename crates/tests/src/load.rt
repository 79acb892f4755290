// Says yes when the load of the whole table is at most a limit.
ghost use Rattle.std.specs.Prelude.{◌≡◌, ◌+◌, ◌*◌, ◌<◌, ◌≤◌, None, Decides, MatchResult, slice_index_or};
ghost use Rattle.schedulability.specs.Laws.{Alike};
ghost use Rattle.schedulability.specs.Proper.{guarded};
ghost use Rattle.tests.specs.Words.{LoadSays};
ghost use Rattle.tests.specs.Rules.{load, loaded, utilization};
ghost use Rattle.tests.specs.Keeps.{load_raise, load_removal};

use demand::mode::WHOLE;
use schedulability::fault::TestFault;
use schedulability::proper::is_proper;
use schedulability::test::Test;
use tasks::record::LAST;
use tasks::set::TaskSet;
use tasks::table::Table;

#[derive(Clone, Copy)]
pub struct Load {
    limit: u32,
    ghost bounds: { (1 ≤ limit) × (limit ≤ 1000000) },
}

impl Load {
    pub fn new(limit: u32) -> Result<Load, TestFault>
        ensures { MatchResult result (λ v. (v.limit ≡ limit) × (1 ≤ limit) × (limit ≤ 1000000)) (λ f. (f ≡ TestFault.Limit limit) × ((1 ≤ limit) × (limit ≤ 1000000) → ⊥)) }
    {
        if limit < 1 || limit as u64 > WHOLE {
            return Err(TestFault::Limit(limit));
        }
        Ok(Load { limit })
    }
}

impl Test for Load {
    ghost says = { λ s. guarded (loaded s.limit) };

    ghost raise = { λ s. load_raise s.limit };

    ghost removal = { λ s. load_removal s.limit };

    fn passes(&mut self, table: &Table, task: u8, above: TaskSet) -> bool
        ensures answer { result ≡ guarded (loaded self.old.limit) table.now task above.bits }
        ensures same { Alike (guarded (loaded self.new.limit)) (guarded (loaded self.old.limit)) }
        ensures means { Decides result (LoadSays self.old.limit table.now task above.bits) }
    {
        is_proper(table, task, above) && load_of(table) <= self.limit as u64
    }
}

// The millionths of the processor that the tasks of the table take, each share rounded up.
fn load_of(table: &Table) -> u64
    ensures { result ≡ load table.now.places }
{
    (0..LAST + 1).map(|number| share_of(table, number)).sum()
}

#[tactic(auto, using(demand::proofs::Rounding::ceil_quotient))]
fn share_of(table: &Table, number: u8) -> u64
    ensures value { result ≡ utilization (slice_index_or table.now.places number None) }
    ensures bound { result ≤ 1000000000000 }
{
    table.row(number).map_or(0, |row| {
        (row.abnormal as u64 * WHOLE).div_ceil(row.period as u64)
    })
}
