// What a test says of an order that is given.
ghost use Rattle.std.specs.Prelude.{◌≡◌, MatchResult};
ghost use Rattle.priority.specs.Answers.{FirstNo};
ghost use Rattle.schedulability.specs.Laws.{Alike};
ghost use Rattle.tasks.specs.Orders.{Lists};

use crate::fault::OrderFault;
use schedulability::test::Test;
use tasks::set::TaskSet;
use tasks::table::Table;

// The first place of the order, counted from 1, whose task does not pass with exactly the tasks before it above; none where the order
// passes. A list that does not name each task of the table once is refused before the test is asked.
pub fn judge<T: Test>(
    table: &Table,
    order: &[u8],
    test: &mut T,
) -> Result<Option<usize>, OrderFault>
    ensures value { MatchResult result
        (λ n. Lists order.now table.now.places × FirstNo (T.says test.old) table.now order.now n)
        (λ _. (Lists order.now table.now.places → ⊥) × (test.new ≡ test.old)) }
    ensures same { Alike (T.says test.new) (T.says test.old) }
{
    if !table.is_listed_by(order) {
        return Err(OrderFault);
    }
    let mut above = TaskSet::empty();
    for (i, task) in order.iter().enumerate() {
        if !test.passes(table, *task, above) {
            return Ok(Some(i + 1));
        }
        above = above.with(*task);
    }
    Ok(None)
}
