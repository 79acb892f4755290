// A test of one's own, which remembers how often it was asked.
ghost use Rattle.std.specs.Prelude.{◌≡◌, ◌+◌, ◌-◌, ◌^◌, min};
ghost use Rattle.own_test.specs.Few.{few};
ghost use Rattle.schedulability.specs.Laws.{Alike};
ghost use Rattle.schedulability.specs.Proper.{guarded};
ghost use Rattle.own_test.specs.Fewer.{few_raise, few_removal};

use schedulability::proper::is_proper;
use schedulability::test::Test;
use tasks::set::TaskSet;
use tasks::table::Table;

// Says yes when at most so many tasks are above.
#[derive(Clone, Copy)]
pub struct FewAbove {
    most: u32,
    asked: u64,
}

impl FewAbove {
    pub fn new(most: u32) -> FewAbove
        ensures { (result.most ≡ most) × (result.asked ≡ 0) }
    {
        FewAbove { most, asked: 0 }
    }

    // How often it was asked; the count stops at the largest u64.
    pub fn asked(&self) -> u64
        ensures { result ≡ self.now.asked }
    {
        self.asked
    }
}

impl Test for FewAbove {
    ghost says = { λ s. guarded (few s.most) };

    ghost raise = { λ s. few_raise s.most };

    ghost removal = { λ s. few_removal s.most };

    // The trait asks for the first two clauses. The third holds of this test alone.
    fn passes(&mut self, table: &Table, task: u8, above: TaskSet) -> bool
        ensures answer { result ≡ guarded (few self.old.most) table.now task above.bits }
        ensures same { Alike (guarded (few self.new.most)) (guarded (few self.old.most)) }
        ensures counted { self.new.asked ≡ min (self.old.asked + 1) (2 ^ 64 - 1) }
    {
        self.asked = self.asked.saturating_add(1);
        is_proper(table, task, above) && above.len() <= self.most
    }
}
