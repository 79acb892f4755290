// Says yes when the normal demand and the longest section of a task below are met by the deadline.
ghost use Rattle.std.specs.Prelude.{◌≡◌, ◌≤◌, Decides};
ghost use Rattle.schedulability.specs.Laws.{Alike};
ghost use Rattle.schedulability.specs.Proper.{guarded};
ghost use Rattle.tests.specs.Words.{SectionsSays};
ghost use Rattle.tests.specs.Rules.{unblocked, blocking, section_if_below};
ghost use Rattle.tests.specs.Keeps.{sections_raise, sections_removal};

use demand::least_covering;
use demand::mode::Mode;
use schedulability::proper::is_proper;
use schedulability::test::Test;
use tasks::record::LAST;
use tasks::set::TaskSet;
use tasks::table::Table;

#[derive(Clone, Copy)]
pub struct Sections;

impl Test for Sections {
    ghost says = { λ _. guarded unblocked };

    ghost raise = { λ s. sections_raise };

    ghost removal = { λ s. sections_removal };

    fn passes(&mut self, table: &Table, task: u8, above: TaskSet) -> bool
        ensures answer { result ≡ guarded unblocked table.now task above.bits }
        ensures same { Alike (guarded unblocked) (guarded unblocked) }
        ensures means { Decides result (SectionsSays table.now task above.bits) }
    {
        is_proper(table, task, above) && is_unblocked(table, task, above)
    }
}

// Whether some time up to the deadline serves behind the longest section.
fn is_unblocked(table: &Table, task: u8, above: TaskSet) -> bool
    ensures { result ≡ unblocked table.now task above.bits }
{
    let Some(row) = table.row(task) else {
        return false;
    };
    let fixed = row.normal + longest_section(table, task, above);
    least_covering(table, above, Mode::Normal, fixed, row.deadline).is_some()
}

// The longest section of the tasks below: on the table, not the task itself and not above it.
fn longest_section(table: &Table, task: u8, above: TaskSet) -> u32
    ensures value { result ≡ blocking table.now.places task above.bits }
    ensures bound { result ≤ 1000000 }
{
    (0..LAST + 1)
        .map(|number| section_below(table, number, task, above))
        .max()
        .unwrap_or(0)
}

fn section_below(table: &Table, number: u8, task: u8, above: TaskSet) -> u32
    ensures value { result ≡ section_if_below table.now.places task above.bits number }
    ensures bound { result ≤ 1000000 }
{
    if number == task || above.contains(number) {
        return 0;
    }
    table.row(number).map_or(0, |row| row.section)
}
