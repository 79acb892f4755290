// What a task asks of the processor below a set of tasks, and its response time.
#![tactic(auto)]

ghost use Rattle.std.specs.Prelude.{◌≡◌, None, MatchOption, slice_index_or};
ghost use Rattle.demand.specs.Demand.{demand, Covers, IsLeast, IsResponse};
ghost use Rattle.std.specs.Option.{option_map};

use below::Below;
use mode::Mode;
use tasks::set::TaskSet;
use tasks::table::Table;

mod below;
mod covering;
pub mod mode;

// The public calls take the parts of a `Below` apart: with the struct no call of them would be shorter.

// What the task asks for in t ticks below the set; none exactly at an empty place or a number above 31. An empty place in the set asks for
// nothing, and the task itself counts there like any other.
pub fn demand(table: &Table, task: u8, above: TaskSet, mode: Mode, t: u32) -> Option<u64>
    ensures { result ≡ option_map (λ row. demand mode table.now.places row above.bits t) (slice_index_or table.now.places task None) }
{
    let row = table.row(task)?;
    let below = Below { table, above, mode };
    Some(mode.cost(row) as u64 + below.interference(t))
}

// The least t from 1 to the end that covers a fixed part and what the tasks of a set ask for; goes from each t to what is asked at t.
pub fn least_covering(
    table: &Table,
    above: TaskSet,
    mode: Mode,
    fixed: u32,
    end: u32,
) -> Option<u32>
    ensures { IsLeast (Covers mode table.now.places above.bits fixed) end result }
{
    Below { table, above, mode }.least_covering(fixed, end)
}

// The response time of the task below the set, absent at an empty place. The set counts as in its demand.
pub fn response(table: &Table, task: u8, above: TaskSet, mode: Mode) -> Option<u32>
    ensures { MatchOption (slice_index_or table.now.places task None) (result ≡ None) (λ row. IsResponse mode table.now.places row above.bits result) }
{
    let row = table.row(task)?;
    least_covering(table, above, mode, mode.cost(row), row.deadline)
}
