// A walk over the members of a set, lowest first: `for number in set`.
ghost use Rattle.std.specs.Prelude.{◌≡◌};
ghost use Rattle.std.specs.Iterator.{YieldsFirst, item_count};
ghost use Rattle.tasks.specs.Sets.{members};

use crate::set::TaskSet;

#[derive(Clone, Copy)]
pub struct Members {
    pub(crate) left: TaskSet,
}

impl Iterator for Members {
    type Item = u8;

    ghost next_gives = { YieldsFirst (λ s. members s.left.bits) };

    ghost remaining = { item_count (λ s. members s.left.bits) };

    fn next(&mut self) -> Option<u8> {
        self.left.take_lowest()
    }
}

impl IntoIterator for TaskSet {
    type Item = u8;

    type IntoIter = Members;

    ghost into_iter_gives = { λ s walk. walk.left ≡ s };

    fn into_iter(self) -> Members {
        Members { left: self }
    }
}
