// A second reader of roster files, to hold the library's against. It is written plainly over byte offsets and with bare numbers, and takes
// nothing of the library's ways, nor of std's conversions that the library uses: else both could be wrong alike.
ghost use Rattle.std.specs.Prelude.{◌+◌, ◌≤◌, length};

use tasks::kind::Kind;
use tasks::order::Order;
use tasks::refusal::{Layer, Refusal};
use tasks::row::Row;
use tasks::table::Table;

const MOST: u32 = 1_000_000;

// What a file is refused for: what the refusal tells, and what the one inside it tells, if there is one.
#[derive(Clone, Copy)]
pub(crate) struct Said {
    pub outer: Refusal,
    pub inner: Option<Refusal>,
}

// Written out, and not made by the library.
fn told(number: u8, layer: Layer, place: usize) -> Refusal {
    Refusal {
        number,
        layer,
        place,
        innermost: number,
    }
}

fn plainly(number: u8, place: usize) -> Said {
    Said {
        outer: told(number, Layer::File, place),
        inner: None,
    }
}

fn time(file: &[u8], at: usize) -> u32
    requires { «at» + 4 ≤ length file.now }
{
    u32::from(file[at + 3]) * 16_777_216
        + u32::from(file[at + 2]) * 65_536
        + u32::from(file[at + 1]) * 256
        + u32::from(file[at])
}

fn row(file: &[u8], at: usize) -> Row
    requires { «at» + 22 ≤ length file.now }
{
    let kind = if file[at + 1] == 1 {
        Kind::Strict
    } else {
        Kind::Tolerable
    };
    Row {
        kind,
        normal: time(file, at + 2),
        abnormal: time(file, at + 6),
        section: time(file, at + 10),
        deadline: time(file, at + 14),
        period: time(file, at + 18),
    }
}

// The number of the first bound that a record breaks.
fn broken(number: u8, row: Row) -> Option<u8> {
    if number > 31 {
        Some(1)
    } else if row.normal == 0 || row.abnormal < row.normal || MOST < row.abnormal {
        Some(2)
    } else if row.deadline == 0 || row.period < row.deadline || MOST < row.period {
        Some(3)
    } else if row.normal < row.section {
        Some(4)
    } else {
        None
    }
}

// Why the record that begins at an offset, after the others, does not stand.
fn stands(file: &[u8], at: usize) -> Result<(), Said>
    requires { (2 ≤ «at») × («at» + 22 ≤ length file.now) }
{
    if file[at + 1] > 1 {
        return Err(plainly(17, at + 1));
    }
    let number = file[at];
    let place = usize::from(number);
    let inner = if let Some(bound) = broken(number, row(file, at)) {
        told(bound, Layer::Record, place)
    } else if file[2..at].chunks(22).any(|other| other[0] == number) {
        told(5, Layer::Roster, place)
    } else {
        return Ok(());
    };
    Err(Said {
        outer: told(inner.number, Layer::File, at),
        inner: Some(inner),
    })
}

// Whether each of these records stands once among as many numbers.
fn names_each(records: &[u8], order: &[u8]) -> bool {
    records.len() / 22 == order.len()
        && records.chunks(22).map(|record| record[0]).all(|task| order
            .iter()
            .filter(|number| **number == task)
            .count()
            == 1)
}

// What a file is refused for, or whether this table and this order are what it holds.
pub(crate) fn holds(file: &[u8], table: &Table, order: &Order) -> Result<bool, Said> {
    let end = file.len();
    if file.first() != Some(&1) {
        return Err(plainly(14, 0));
    }
    let count = usize::from(*file.get(1).ok_or(plainly(15, end))?);
    if count > 32 {
        return Err(plainly(16, 1));
    }
    let mut same = table.tasks().len() as usize == count;
    // by offset, which the refusals tell
    for k in 0..count {
        let at = 2 + 22 * k;
        if at + 22 > end {
            return Err(plainly(15, end));
        }
        stands(file, at)?;
        same &= table.row(file[at]) == Some(row(file, at));
    }
    let at = 2 + 22 * count;
    if at >= end {
        return Err(plainly(15, end));
    }
    let past = at + 1 + usize::from(file[at]);
    if past > end {
        return Err(plainly(15, end));
    }
    let numbers = &file[at + 1..past];
    if !numbers.is_empty() && !names_each(&file[2..at], numbers) {
        return Err(plainly(18, at));
    }
    if past < end {
        return Err(plainly(19, past));
    }
    Ok(same && order.as_slice() == numbers)
}
