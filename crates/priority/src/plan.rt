// The plan of a table: places are filled from the lowest up.
ghost use Rattle.std.specs.Prelude.{◌≡◌, ℕ, true, List, MatchOption, MatchResult};
ghost use Rattle.priority.specs.Answers.{left_by};
ghost use Rattle.priority.specs.Fillings.{LeftOver, Stuck};
ghost use Rattle.priority.specs.Passing.{NoOrder};
ghost use Rattle.priority.specs.Plans.{deadline, TriedBefore, FirstYes, IsPlan};
ghost use Rattle.schedulability.specs.Laws.{Alike};
ghost use Rattle.tasks.specs.Sets.{member, excluding};

use crate::fault::PlanFault;
use schedulability::test::Test;
use tasks::order::Order;
use tasks::set::TaskSet;
use tasks::table::Table;

// At each place the tasks left are tried with all the others left above, and the first that passes takes it. If none does, no order
// of the table's tasks passes, whatever had been put in the places below.
pub fn plan<T: Test>(table: &Table, test: &mut T) -> Result<Order, PlanFault>
    ensures outcome { MatchResult result
        (λ o. IsPlan (T.says test.old) table.now o)
        (λ f. NoOrder (T.says test.old) table.now × ((n : ℕ) × (member f.left.bits n ≡ true))) }
    ensures only { (p : List ℕ) → IsPlan (T.says test.old) table.now p → MatchResult result (λ o. o ≡ p) (λ _. ⊥) }
    ensures left { LeftOver (T.says test.old) table.now (left_by result) }
    ensures always_left { (l : ℕ) → LeftOver (T.says test.old) table.now l → l ≡ left_by result }
    ensures same { Alike (T.says test.new) (T.says test.old) }
{
    let mut left = table.tasks();
    let mut upwards = Order::empty();
    while let Some(task) = lowest(table, left, test) {
        left = left.without(task);
        upwards.push(task);
    }
    if !left.is_empty() {
        return Err(PlanFault { left });
    }
    Ok(upwards.reversed())
}

// The first of the tasks left that passes with all the others left above it.
fn lowest<T: Test>(table: &Table, left: TaskSet, test: &mut T) -> Option<u8>
    ensures value { MatchOption result
        (Stuck (T.says test.old) table.now left.bits)
        (λ k. (member left.bits k ≡ true) × FirstYes (T.says test.old) table.now (excluding left.bits k) k) }
    ensures same { Alike (T.says test.new) (T.says test.old) }
{
    let mut untried = left;
    while let Some(task) = last_due(table, untried) {
        untried = untried.without(task);
        if test.passes(table, task, left.without(task)) {
            return Some(task);
        }
    }
    None
}

// The task with the longest deadline, of equal deadlines the one with the highest number.
fn last_due(table: &Table, tasks: TaskSet) -> Option<u8>
    ensures { MatchOption result
        (tasks.bits ≡ 0)
        (λ k. (member tasks.bits k ≡ true) × ((j : ℕ) → member tasks.bits j ≡ true → TriedBefore table.now j k → ⊥)) }
{
    // of equal deadlines the one met last, and so the highest number
    tasks
        .into_iter()
        .max_by_key(|number| deadline_of(table, *number))
}

// The deadline of a task, 0 where there is none.
fn deadline_of(table: &Table, number: u8) -> u32
    ensures { result ≡ deadline table.now number }
{
    table.row(number).map_or(0, |row| row.deadline)
}
