// What can be seen of a queue.
ghost use Rattle.std.specs.Prelude.{◌≡◌, length, IfSome, ◌==◌};
ghost use Rattle.queue.specs.Queues.{entries, front};
ghost use Rattle.queue.specs.Ranks.{First};

use crate::queue::Queue;
use crate::rank::Rank;

impl<'a, E: Rank + Copy> Queue<'a, E> {
    pub fn len(&self) -> usize
        ensures { result ≡ length (entries self.now) }
    {
        self.count
    }

    pub fn is_empty(&self) -> bool
        ensures { result ≡ (length (entries self.now) == 0) }
    {
        self.len() == 0
    }

    // The entry that comes out next.
    pub fn first(&self) -> Option<E>
        ensures front { result ≡ front (entries self.now) }
        ensures first { IfSome result (λ x. First E.Rank.precedence x (entries self.now)) }
    {
        self.slots[..self.count].first().copied()
    }
}
