// Which of a task's two times its jobs may take: the normal one, or the abnormal one of a job with fault recovery.
ghost use Rattle.std.specs.Prelude.{◌≡◌, ◌*◌, ◌≤◌, Some};
ghost use Rattle.demand.specs.Demand.{releases, cost, share, rate};
ghost use Rattle.tasks.specs.Bounds.{Bounded};

use tasks::row::Row;

// The whole processor, in the parts that rates and loads are counted in.
pub const WHOLE: u64 = 1_000_000;

#[derive(Clone, Copy, PartialEq, Eq, Debug)]
pub enum Mode {
    Normal,
    Abnormal,
}

impl Mode {
    // The longest time of a job of the task.
    pub(crate) fn cost(self, row: Row) -> u32
        ensures { result ≡ cost self row }
    {
        match self {
            Mode::Normal => row.normal,
            Mode::Abnormal => row.abnormal,
        }
    }

    // What the task asks for in t ticks.
    #[tactic(auto, using(crate::proofs::Bounds::asked_le))]
    pub(crate) fn share(self, row: Row, t: u32) -> u64
        requires { Bounded row }
        ensures value { result ≡ share self t (Some row) }
        ensures bound { result ≤ 1000000 * t }
    {
        self.cost(row) as u64 * releases(row.period, t) as u64
    }

    // How much of the processor the task takes at least.
    pub(crate) fn rate(self, row: Row) -> u64
        requires { Bounded row }
        ensures value { result ≡ rate self (Some row) }
        ensures bound { result ≤ 1000000000000 }
    {
        self.cost(row) as u64 * WHOLE / row.period as u64
    }
}

#[tactic(auto, using(crate::proofs::Rounding::ceil_quotient))]
fn releases(period: u32, t: u32) -> u32
    requires { 1 ≤ period }
    ensures { result ≡ releases period t }
{
    t.div_ceil(period)
}
