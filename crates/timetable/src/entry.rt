// What the two queues of a drawing hold.
ghost use Rattle.timetable.specs.Ranking.{by_release, by_place};
ghost use Rattle.std.proofs.Common.{rules};

use queue::rank::Rank;

// A job that is not released yet. These wait by time.
#[derive(Clone, Copy, PartialEq, Eq, Debug, Default)]
pub struct Coming {
    pub release: u32,
    // in the job list
    pub index: usize,
}

impl Rank for Coming {
    ghost precedence = { by_release };

    ghost total = { Prim.search rules };

    ghost transitive = { Prim.search rules };

    fn may_precede(&self, other: &Coming) -> bool {
        self.release <= other.release
    }
}

// A released job that is not finished. These wait by the place of their task in the order, and those of one task by release.
#[derive(Clone, Copy, PartialEq, Eq, Debug, Default)]
pub struct Waiting {
    pub place: usize,
    pub release: u32,
    // in the job list
    pub index: usize,
    // the ticks that it has not had yet
    pub left: u64,
}

impl Rank for Waiting {
    ghost precedence = { by_place };

    ghost total = { Prim.search rules };

    ghost transitive = { Prim.search rules };

    fn may_precede(&self, other: &Waiting) -> bool {
        (self.place, self.release) <= (other.place, other.release)
    }
}
