// What an entry of a queue has: a total rank.
ghost use Rattle.std.specs.Prelude.{◌≡◌, Bool, true, false};

// Not std's `Ord`: that wants two entries of one rank to be equal, and these may differ.
pub trait Rank {
    // the first ranks no later than the second, so it may come out before it
    ghost precedence: { Self → Self → Bool };

    fn may_precede(&self, other: &Self) -> bool
        ensures { result ≡ precedence self.now other.now };

    // any two entries compare
    ghost total: { (x y : Self) → precedence x y ≡ false → precedence y x ≡ true };

    ghost transitive: { (x y z : Self) → precedence x y ≡ true → precedence y z ≡ true → precedence x z ≡ true };
}
