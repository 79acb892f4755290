// Says yes when the response time in a mode is present.
ghost use Rattle.std.specs.Prelude.{◌≡◌, Decides};
ghost use Rattle.schedulability.specs.Laws.{Alike};
ghost use Rattle.schedulability.specs.Proper.{guarded};
ghost use Rattle.tests.specs.Words.{InTimeSays};
ghost use Rattle.tests.specs.Rules.{responds};
ghost use Rattle.tests.specs.Keeps.{in_time_raise, in_time_removal};

use demand::mode::Mode;
use demand::{demand, response};
use schedulability::proper::is_proper;
use schedulability::test::Test;
use tasks::set::TaskSet;
use tasks::table::Table;

#[derive(Clone, Copy)]
pub struct InTime {
    mode: Mode,
}

impl InTime {
    // The normal test or the abnormal one.
    pub fn new(mode: Mode) -> InTime
        ensures { result.mode ≡ mode }
    {
        InTime { mode }
    }
}

impl Test for InTime {
    ghost says = { λ s. guarded (responds s.mode) };

    ghost raise = { λ s. in_time_raise s.mode };

    ghost removal = { λ s. in_time_removal s.mode };

    fn passes(&mut self, table: &Table, task: u8, above: TaskSet) -> bool
        ensures answer { result ≡ guarded (responds self.old.mode) table.now task above.bits }
        ensures same { Alike (guarded (responds self.new.mode)) (guarded (responds self.old.mode)) }
        ensures means { Decides result (InTimeSays self.old.mode table.now task above.bits) }
    {
        is_proper(table, task, above) && is_in_time(table, task, above, self.mode)
    }
}

// Whether some time up to the deadline serves; asked with the parts of the test's own question. The deadline itself is asked first: it costs one sum, and most tasks that are in time
// are served by it.
fn is_in_time(table: &Table, task: u8, above: TaskSet, mode: Mode) -> bool
    ensures { result ≡ responds mode table.now task above.bits }
{
    let Some(row) = table.row(task) else {
        return false;
    };
    demand(table, task, above, mode, row.deadline).is_some_and(|asked| asked <= row.deadline as u64)
        || response(table, task, above, mode).is_some()
}
