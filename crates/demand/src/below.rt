// What a task meets below a set of tasks, in a mode.
ghost use Rattle.std.specs.Prelude.{◌≡◌, ◌*◌, ◌≤◌, None, slice_index_or};
ghost use Rattle.demand.specs.Demand.{share, interference};
ghost use Rattle.tasks.specs.Sets.{members};

use crate::mode::Mode;
use tasks::set::TaskSet;
use tasks::table::Table;

#[derive(Clone, Copy)]
pub(crate) struct Below<'a> {
    pub(crate) table: &'a Table,
    pub(crate) above: TaskSet,
    pub(crate) mode: Mode,
}

impl Below<'_> {
    // What the tasks of the set ask for in t ticks.
    pub(crate) fn interference(&self, t: u32) -> u64
        ensures value { result ≡ interference self.now.mode self.now.table.now.places (members self.now.above.bits) t }
        ensures bound { result ≤ 32 * (1000000 * t) }
    {
        self.above
            .into_iter()
            .map(|number| self.share(number, t))
            .sum()
    }

    fn share(&self, number: u8, t: u32) -> u64
        ensures value { result ≡ share self.now.mode t (slice_index_or self.now.table.now.places number None) }
        ensures bound { result ≤ 1000000 * t }
    {
        let mode = self.mode;
        self.table.row(number).map_or(0, |row| mode.share(row, t))
    }
}
