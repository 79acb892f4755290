// Small tables, drawn alike in every run.
ghost use Rattle.std.specs.Prelude.{◌<◌, ◌≤◌};

use samples::draws::Draws;
use tasks::fault::EntryFault;
use tasks::kind::Kind;
use tasks::row::Row;
use tasks::table::Table;

// One of so many tasks, with a normal time up to its share of some tenths of the deadline. Most deadlines are multiples of 8, so
// that many are equal.
fn any_row(draws: &mut Draws, size: u8, tenths: u32) -> Row
    requires { (0 < size) × (tenths ≤ 100) }
{
    let period = 4 + draws.below(37);
    let deadline = match draws.below(4) {
        0 => period,
        _ => (period / 8 * 8).max(4),
    };
    let normal = 1 + draws.below(deadline * tenths / (10 * size as u32) + 1);
    let abnormal = normal + draws.below(normal / 2 + 1);
    let section = draws.below(normal + 1);
    let kind = match draws.below(2) {
        0 => Kind::Tolerable,
        _ => Kind::Strict,
    };
    Row {
        kind,
        normal,
        abnormal,
        section,
        deadline,
        period,
    }
}

// A table of so many tasks, which ask for so much of the processor that about half of the tables have no order. An odd stride leads
// to all 32 numbers before one comes again.
pub(crate) fn any_table(draws: &mut Draws, size: u8) -> Result<Table, EntryFault> {
    let mut table = Table::empty();
    let first = draws.below(32);
    let stride = 2 * draws.below(16) + 1;
    let tenths = 10 + draws.below(12);
    for i in 0..size {
        let number = (first + i as u32 * stride) % 32;
        table.enter(number as u8, any_row(draws, size, tenths))?;
    }
    Ok(table)
}
