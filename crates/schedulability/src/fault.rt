// The faults of making a test or a layer.
ghost use Rattle.schedulability.specs.Refusals.{test_tells};

use tasks::refusal::{Fault, Layer, Refusal};
use thiserror::Error;

// The value given, which is out of its bounds.
#[derive(Clone, Copy, PartialEq, Eq, Debug, Error)]
pub enum TestFault {
    // 21
    #[error("the reserve {0} is above 1,000,000")]
    Reserve(u32),
    // 22
    #[error("the limit {0} is not from 1 to 1,000,000")]
    Limit(u32),
}

impl Fault for TestFault {
    ghost tells = { test_tells };

    fn refusal(&self) -> Refusal {
        let (number, value) = match self {
            TestFault::Reserve(reserve) => (21, *reserve),
            TestFault::Limit(limit) => (22, *limit),
        };
        Refusal::new(number, Layer::Pile, value as usize)
    }
}

// A test that was not put under a layer, given back with the reason.
#[derive(Drop)]
pub struct Rejected<L> {
    pub fault: TestFault,
    pub test: L,
}

impl<L> Fault for Rejected<L> {
    ghost tells = { λ e. test_tells e.fault };

    fn refusal(&self) -> Refusal {
        self.fault.refusal()
    }
}
