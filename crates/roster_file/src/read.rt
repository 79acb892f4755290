// Reads a whole file into a table and an order handed in.
ghost use Rattle.std.specs.Prelude.{◌≡◌, ℕ, ◌≤◌, true, List, ◌∷◌, is_ok, Err, Decides, MatchResult, OnErr};
ghost use Rattle.tasks.specs.declared.table.Table.{Table};
ghost use Rattle.roster_file.specs.OrderSection.{OrderRead, OrderRefused};
ghost use Rattle.roster_file.specs.Layout.{edition, Named, Layout, Refused};
ghost use Rattle.roster_file.specs.declared.fault.FileFault.{FileFault};

use crate::fault::FileFault;
use crate::order_section::Numbers;
use crate::reader::Reader;
use crate::task_section::Tasks;
use tasks::order::Order;
use tasks::table::Table;

// The first byte of every file.
pub(crate) const EDITION: u8 = 1;

// The most tasks that a table has places for.
pub(crate) const MOST: u8 = 32;

// The count of the tasks, and the bytes after it.
fn opening(bytes: &[u8]) -> Result<(u8, &[u8]), FileFault>
    ensures { MatchResult result (λ p. (bytes.now ≡ edition ∷ p.0 ∷ p.1.now) × (p.0 ≤ 32)) (Refused bytes.now) }
{
    match bytes {
        [EDITION, count, rest @ ..] if *count <= MOST => Ok((*count, rest)),
        [EDITION, _, ..] => Err(FileFault::Count),
        [EDITION] => Err(FileFault::Cut(bytes.len())),
        _ => Err(FileFault::Edition),
    }
}

// The order section: empty, or each task of the table once.
fn read_order(reader: &mut Reader<'_>, table: &Table) -> Result<Order, FileFault>
    ensures { MatchResult result (λ o. OrderRead reader.old.rest.now reader.old.at table.now o reader.new.rest.now reader.new.at) (OrderRefused reader.old.rest.now reader.old.at table.now) }
{
    let at = reader.at;
    let count = reader.next::<Numbers>()?;
    let numbers = reader.section::<Numbers>(count)?;
    numbers
        .order
        .filter(|order| is_named(order, table))
        .ok_or(FileFault::Order(at))
}

// Whether the order is empty or names each task once.
fn is_named(order: &Order, table: &Table) -> bool
    ensures { Decides result (Named order.now table.now) }
{
    let numbers = order.as_slice();
    numbers.is_empty() || table.is_listed_by(numbers)
}

// The table and the order that a lawful file holds replace those handed in; a refused file leaves both as they were. The two are handed in
// apart, and not as a `Standing`: a file may leave the order out.
pub fn read(bytes: &[u8], table: &mut Table, order: &mut Order) -> Result<(), FileFault>
    ensures outcome { MatchResult result (λ _. Layout bytes.now table.new order.new) (Refused bytes.now) }
    ensures kept { OnErr result ((table.new ≡ table.old) × (order.new ≡ order.old)) }
    ensures one_layout { (t : Table) (o : List ℕ) → Layout bytes.now t o → (is_ok result ≡ true) × (table.new ≡ t) × (order.new ≡ o) }
    ensures one_refusal { (f : FileFault) → Refused bytes.now f → result ≡ Err f }
{
    let (count, rest) = opening(bytes)?;
    let mut reader = Reader { rest, at: 2 };
    let tasks = reader.section::<Tasks>(count)?;
    let numbers = read_order(&mut reader, &tasks.table)?;
    if !reader.rest.is_empty() {
        return Err(FileFault::Trailing(reader.at));
    }
    *table = tasks.table;
    *order = numbers;
    Ok(())
}
