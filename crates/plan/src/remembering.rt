// The guarantee test with a memory, so that a plan does not search again where it was told that no time serves.
ghost use Rattle.std.specs.Prelude.{◌≡◌, ℕ, true, false, None};
ghost use Rattle.plan.specs.Remembered.{NoneBy, guaranteed_raise, guaranteed_removal};
ghost use Rattle.tests.specs.Guarantee.{guaranteed};

use schedulability::test::Test;
use tasks::kind::Kind;
use tasks::set::TaskSet;
use tasks::table::Table;
use tests::guarantee::is_guaranteed;

// A strict task that the guarantee test refused below all the others of a set: the table that was asked about, the set and the deadline.
//
// Up to its deadline, which is within its period, a task asks for one job wherever it stands. So all tasks of a set have the same demand,
// each below all the others, up to the earliest of their deadlines; and where one strict task is refused, those that are due no later are.
#[derive(Clone, Copy)]
struct Late {
    table: Table,
    tasks: TaskSet,
    deadline: u32,
    ghost late: { NoneBy table tasks.bits deadline },
}

impl Late {
    // Whether the same is known of this question.
    fn tells(&self, table: &Table, task: u8, above: TaskSet) -> bool
        ensures { result ≡ true → guaranteed table.now task above.bits ≡ false }
    {
        let Some(row) = table.row(task) else {
            return false;
        };
        if row.kind != Kind::Strict || row.deadline > self.deadline || !self.tasks.contains(task) {
            return false;
        }
        let others = self.tasks.without(task);
        others == above && self.table == *table
    }
}

// The guarantee test; the last strict task that it refused is remembered.
#[derive(Clone, Copy)]
pub(crate) struct Remembering {
    late: Option<Late>,
}

impl Remembering {
    pub fn nothing() -> Remembering
        ensures { result.late ≡ None }
    {
        Remembering { late: None }
    }

    // Remembers a question that was answered no, if it was about a strict task.
    fn remember(&mut self, table: &Table, task: u8, above: TaskSet)
        requires { guaranteed table.now task above.bits ≡ false }
    {
        if let Some(row) = table.row(task)
            && row.kind == Kind::Strict
            && !above.contains(task)
        {
            self.late = Some(Late {
                table: *table,
                tasks: above.with(task),
                deadline: row.deadline,
            });
        }
    }
}

impl Test for Remembering {
    ghost says = { λ _. guaranteed };

    ghost raise = { λ _. guaranteed_raise };

    ghost removal = { λ _. guaranteed_removal };

    fn passes(&mut self, table: &Table, task: u8, above: TaskSet) -> bool {
        if let Some(late) = &self.late
            && late.tells(table, task, above)
        {
            return false;
        }
        let passes = is_guaranteed(table, task, above);
        if !passes {
            self.remember(table, task, above);
        }
        passes
    }
}
