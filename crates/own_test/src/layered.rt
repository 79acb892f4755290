// Layers over tests that the caller picks.
ghost use Rattle.std.specs.Prelude.{◌≡◌};

use schedulability::pair::Pair;
use schedulability::reserve::Reserve;
use schedulability::strict_only::StrictOnly;
use schedulability::test::Test;

// The first for strict tasks, and the second for all, with 4 ticks of every deadline in reserve.
pub fn layered<L: Test, R: Test>(first: L, second: R) -> Reserve<Pair<StrictOnly<L>, R>>
    ensures { (result.reserve ≡ 4) × (result.below.first.below ≡ first) × (result.below.second ≡ second) }
{
    let pair = Pair {
        first: StrictOnly { below: first },
        second,
    };
    Reserve::new(4, pair).unwrap()
}
