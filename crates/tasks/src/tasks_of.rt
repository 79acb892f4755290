// The tasks of a table as a set, and whether a list of numbers names each of them once.
ghost use Rattle.std.specs.Prelude.{◌≡◌, ℕ, Decides};
ghost use Rattle.tasks.specs.Orders.{in_use, Lists};
ghost use Rattle.tasks.specs.Sets.{member};

use crate::record::LAST;
use crate::set::TaskSet;
use crate::table::Table;

impl Table {
    pub fn tasks(&self) -> TaskSet
        ensures { (n : ℕ) → member result.bits n ≡ in_use self.now.places n }
    {
        let mut tasks = TaskSet::empty();
        for number in 0..=LAST {
            if self.row(number).is_some() {
                tasks = tasks.with(number);
            }
        }
        tasks
    }

    pub fn is_listed_by(&self, numbers: &[u8]) -> bool
        ensures { Decides result (Lists numbers.now self.now.places) }
    {
        let mut left = self.tasks();
        for number in numbers {
            if !left.contains(*number) {
                return false;
            }
            left = left.without(*number);
        }
        left.is_empty()
    }
}
