// A file read and written again, and a roster written and read back.
ghost use Rattle.std.specs.Prelude.{ℕ, List};
ghost use Rattle.tasks.specs.declared.table.Table.{Table};
ghost use Rattle.roster_file.specs.Layout.{Canonical};
ghost use Rattle.roster_file.specs.Writing.{Rewritten, Copied, Restored};

use crate::fault::RewriteFault;
use crate::read::read;
use crate::write::write;
use tasks::order::Order;
use tasks::standing::Standing;
use tasks::table::Table;

// Writes what a file holds in canonical form: the tasks by rising number, the order named. Answers the count of bytes written, or none
// where the file leaves the order of its tasks out. A canonical file is written as it is.
pub fn rewrite(file: &[u8], space: &mut [u8]) -> Result<Option<usize>, RewriteFault>
    ensures rewritten { Rewritten file.now space.old space.new result }
    ensures copied { (t : Table) (order : List ℕ) → Canonical file.now t order → Copied file.now space.old space.new result }
{
    let mut table = Table::empty();
    let mut order = Order::empty();
    read(file, &mut table, &mut order)?;
    let Some(standing) = Standing::new(table, order) else {
        return Ok(None);
    };
    let written = write(&standing, space)?;
    Ok(Some(written))
}

// Writes the table and the order into the space, and reads them back from there over those handed in.
pub fn restore(
    standing: &Standing,
    space: &mut [u8],
    table: &mut Table,
    order: &mut Order,
) -> Result<usize, RewriteFault>
    ensures { Restored standing.now.table standing.now.order space.old space.new (table.old, order.old) (table.new, order.new) result }
{
    let written = write(standing, space)?;
    read(&space[0..written], table, order)?;
    Ok(written)
}
