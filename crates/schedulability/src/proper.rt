// The question that stands before the rule of every test.
ghost use Rattle.std.specs.Prelude.{◌≡◌, Decides};
ghost use Rattle.schedulability.specs.Proper.{Proper, proper};

use tasks::set::TaskSet;
use tasks::table::Table;

// Whether the task is on the table, not above itself, and every task above it is on the table. Each test asks it in a line of its own,
// which is no longer than a call that takes the rest as a closure; a provided method of the trait would ask it of tests that do without.
pub fn is_proper(table: &Table, task: u8, above: TaskSet) -> bool
    ensures value { result ≡ proper table.now task above.bits }
    ensures means { Decides result (Proper table.now task above.bits) }
{
    table.row(task).is_some() && !above.contains(task) && above.is_subset_of(table.tasks())
}
