// Why there is no order, and why a list of numbers is none.
ghost use Rattle.priority.specs.Refusals.{plan_tells, order_tells};

use tasks::refusal::{Fault, Layer, Refusal};
use tasks::set::TaskSet;
use thiserror::Error;

// 7
#[derive(Clone, Copy, PartialEq, Eq, Debug, Error)]
#[error("no order of the tasks passes")]
pub struct PlanFault {
    // the tasks left when places are filled from the lowest up until none of those left passes below all the others left
    pub left: TaskSet,
}

impl Fault for PlanFault {
    ghost tells = { plan_tells };

    fn refusal(&self) -> Refusal {
        Refusal::new(7, Layer::Roster, 0)
    }
}

// 18
#[derive(Clone, Copy, PartialEq, Eq, Debug, Error)]
#[error("the order does not name each task of the table once")]
pub struct OrderFault;

impl Fault for OrderFault {
    ghost tells = { order_tells };

    fn refusal(&self) -> Refusal {
        Refusal::new(18, Layer::Roster, 0)
    }
}
