// A queue over a working slice that is handed in.
ghost use Rattle.std.specs.Prelude.{◌≡◌, ℕ, ◌≤◌, length, take, slice_index_or};
ghost use Rattle.queue.specs.Ranks.{Arranged, Arranged-prop};

use crate::rank::Rank;

#[derive(Drop)]
pub struct Queue<'a, E: Rank> {
    // the slots; the first `count` hold the entries. No `Vec` or std heap: the memory is handed in, and is blank in the end
    pub(crate) slots: &'a mut [E],
    pub(crate) count: usize,
    // what stands in every other slot
    pub(crate) blank: E,
    ghost room: { count ≤ length slots.now },
    ghost clear: { (k : ℕ) → count ≤ k → slice_index_or slots.now k blank ≡ blank },
    ghost arranged: { Arranged E.Rank.precedence (take count slots.now) } by { Arranged-prop E.Rank.precedence (take count slots.now) },
}
