// The interface of every schedulability test.
ghost use Rattle.std.specs.Prelude.{◌≡◌};
ghost use Rattle.schedulability.specs.Laws.{Meaning, Raise, Removal, Alike};

use tasks::set::TaskSet;
use tasks::table::Table;

// A yes or no for a task on a table with a set of tasks above it. A test may remember things, but not change its meaning.
// The three stand apart and not in a struct: they are the three arguments of a meaning, and a layer changes the table alone.
pub trait Test {
    ghost says: { Self → Meaning };

    fn passes(&mut self, table: &Table, task: u8, above: TaskSet) -> bool
        ensures answer { result ≡ says self.old table.now task above.bits }
        ensures same { Alike (says self.new) (says self.old) };

    ghost raise: { (s : Self) → Raise (says s) };

    ghost removal: { (s : Self) → Removal (says s) };
}
