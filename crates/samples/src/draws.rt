// Numbers drawn alike in every run.
ghost use Rattle.std.specs.Prelude.{◌≡◌, ◌<◌};
ghost use Rattle.samples.specs.Draws.{next, drawn};

// A linear congruential generator.
#[derive(Clone, Copy)]
pub struct Draws {
    state: u64,
}

impl Draws {
    pub fn new(seed: u64) -> Draws
        ensures { result.state ≡ seed }
    {
        Draws { state: seed }
    }

    // A number below the bound, and 0 where there is none.
    pub fn below(&mut self, bound: u32) -> u32
        ensures state { self.new.state ≡ next self.old.state }
        ensures value { result ≡ drawn self.new.state bound }
        ensures below { 0 < bound → result < bound }
    {
        self.state = self
            .state
            .wrapping_mul(6_364_136_223_846_793_005)
            .wrapping_add(1_442_695_040_888_963_407);
        // the low bits of such a generator repeat soon
        let high = (self.state >> 33) as u32;
        high.checked_rem(bound).unwrap_or(0)
    }
}
