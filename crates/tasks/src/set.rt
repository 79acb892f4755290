// Sets of tasks: 32 bits, bit n for task n.
ghost use Rattle.std.specs.Prelude.{◌≡◌, ℕ, ◌<◌, ◌≤◌, true, not, ◌&&◌, ◌||◌, leb, [], ◌∷◌, length, if◌then◌else◌, Decides, MatchOption, ◌==◌, nat_le};
ghost use Rattle.tasks.specs.Orders.{occurs};
ghost use Rattle.tasks.specs.Sets.{member, including, excluding, members};

use crate::record::LAST;

#[derive(Clone, Copy, PartialEq, Eq, Debug)]
pub struct TaskSet {
    pub bits: u32,
}

impl TaskSet {
    pub fn empty() -> TaskSet
        ensures { result.bits ≡ 0 }
    {
        TaskSet { bits: 0 }
    }

    pub fn is_empty(self) -> bool
        ensures bits { result ≡ (self.bits == 0) }
        ensures members { result ≡ true → members self.bits ≡ [] }
    {
        self.bits == 0
    }

    // No number above the last is a member.
    pub fn contains(self, number: u8) -> bool
        ensures { result ≡ member self.bits number }
    {
        number <= LAST && (self.bits >> number) % 2 == 1
    }

    // The set with a task, unchanged by a number above the last.
    pub fn with(self, number: u8) -> TaskSet
        ensures bits { result.bits ≡ (if leb number 31 then including self.bits number else self.bits) }
        ensures members { (j : ℕ) → member result.bits j ≡ (member self.bits j || (j == number && nat_le number 31)) }
    {
        if number > LAST {
            return self;
        }
        TaskSet {
            bits: self.bits | (1 << number),
        }
    }

    pub fn without(self, number: u8) -> TaskSet
        ensures bits { result.bits ≡ excluding self.bits number }
        ensures members { (j : ℕ) → member result.bits j ≡ (member self.bits j && not (j == number)) }
    {
        if !self.contains(number) {
            return self;
        }
        TaskSet {
            bits: self.bits - (1 << number),
        }
    }

    pub fn is_subset_of(self, other: TaskSet) -> bool
        ensures { Decides result ((j : ℕ) → member self.bits j ≡ true → member other.bits j ≡ true) }
    {
        self.bits & other.bits == self.bits
    }

    // How many members there are; the list of them has each member once.
    pub fn len(self) -> u32
        ensures count { result ≡ length (members self.bits) }
        ensures once { (n : ℕ) → occurs n (members self.bits) ≡ (if member self.bits n then 1 else 0) }
    {
        self.bits.count_ones()
    }

    // One step of a walk over the members, lowest first.
    pub fn take_lowest(&mut self) -> Option<u8>
        ensures { MatchOption result
            ((self.old.bits ≡ 0) × (members self.old.bits ≡ []) × (self.new ≡ self.old))
            (λ n. (members self.old.bits ≡ n ∷ members self.new.bits) × (n ≤ 31) × (self.new.bits ≡ excluding self.old.bits n) × ((j : ℕ) → member self.new.bits j ≡ true → n < j)) }
    {
        if self.is_empty() {
            return None;
        }
        let lowest = self.bits.trailing_zeros() as u8;
        self.bits &= self.bits - 1;
        Some(lowest)
    }
}
