// The search for the least time that covers a fixed part and what the tasks of a set ask for.
ghost use Rattle.std.specs.Prelude.{◌≡◌, ℕ, ◌*◌, ◌<◌, ◌≤◌, None, MatchOption, slice_index_or};
ghost use Rattle.demand.specs.Demand.{rate, interference, Covers, IsLeast};
ghost use Rattle.tasks.specs.Sets.{members};

use crate::below::Below;
use crate::mode::WHOLE;

impl Below<'_> {
    // The least t from 1 to the end that covers; goes from each t to what is asked at t.
    pub(crate) fn least_covering(&self, fixed: u32, end: u32) -> Option<u32>
        ensures { IsLeast (Covers self.now.mode self.now.table.now.places self.now.above.bits fixed) end result }
    {
        let mut t = self.start(fixed)?;
        while t <= end as u64 {
            let asked = fixed as u64 + self.interference(t as u32);
            if asked <= t {
                return Some(t as u32);
            }
            t = asked;
        }
        None
    }

    // A time before which none covers the fixed part; none only where no time at all does, since the tasks fill the processor.
    fn start(&self, fixed: u32) -> Option<u64>
        ensures { MatchOption result
            ((s : ℕ) → 1 ≤ s → Covers self.now.mode self.now.table.now.places self.now.above.bits fixed s → ⊥)
            (λ t. (1 ≤ t) × ((s : ℕ) → 1 ≤ s → s < t → Covers self.now.mode self.now.table.now.places self.now.above.bits fixed s → ⊥)) }
    {
        let taken = self.load();
        if fixed == 0 && taken <= WHOLE {
            return Some(1);
        }
        if taken >= WHOLE {
            return None;
        }
        Some((fixed as u64 * WHOLE).div_ceil(WHOLE - taken))
    }

    // How much of the processor the tasks of the set take at least. A sum of its own beside `interference`: one over a closure would have to
    // be given the bound that keeps it from overflowing, which differs.
    fn load(&self) -> u64
        ensures { (t : ℕ) → t * result ≤ interference self.now.mode self.now.table.now.places (members self.now.above.bits) t * 1000000 }
    {
        self.above.into_iter().map(|number| self.rate(number)).sum()
    }

    fn rate(&self, number: u8) -> u64
        ensures value { result ≡ rate self.now.mode (slice_index_or self.now.table.now.places number None) }
        ensures bound { result ≤ 1000000000000 }
    {
        let mode = self.mode;
        self.table.row(number).map_or(0, |row| mode.rate(row))
    }
}
