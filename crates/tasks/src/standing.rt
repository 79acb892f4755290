// A table with an order that lists each of its tasks once.
ghost use Rattle.std.specs.Prelude.{◌≡◌, MatchOption};
ghost use Rattle.tasks.specs.Orders.{Lists};

use crate::order::Order;
use crate::table::Table;

#[derive(Clone, Copy, PartialEq, Eq, Debug)]
pub struct Standing {
    pub(crate) table: Table,
    pub(crate) order: Order,
    ghost named: { Lists order table.places },
}

impl Standing {
    // The two together; none exactly where the order does not list each task once.
    pub fn new(table: Table, order: Order) -> Option<Standing>
        ensures { MatchOption result
            (Lists order table.places → ⊥)
            (λ s. (s.table ≡ table) × (s.order ≡ order)) }
    {
        if !table.is_listed_by(order.as_slice()) {
            return None;
        }
        Some(Standing { table, order })
    }

    pub fn table(&self) -> &Table
        ensures { result.now ≡ self.now.table }
    {
        &self.table
    }

    pub fn order(&self) -> &Order
        ensures { result.now ≡ self.now.order }
    {
        &self.order
    }
}
