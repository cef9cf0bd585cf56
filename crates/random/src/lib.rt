//! A small generator of numbers for tests and measurements, the same at every run.
#![tactic(auto)]

ghost use Rattle.std.specs.Prelude.{◌≡◌};
ghost use Rattle.random.specs.Sequence.{next_state, drawn};

#[derive(Drop)]
pub struct Generator {
    state: u64,
}

impl Generator {
    pub fn new(seed: u64) -> Generator
        ensures { result.state ≡ seed }
    {
        Generator { state: seed }
    }

    /// A number below the bound, or 0 where the bound is 0. A linear congruence, of which the high bits are used.
    pub fn below(&mut self, bound: usize) -> usize
        ensures answer { result ≡ drawn self.old.state bound }
        ensures after { self.new.state ≡ next_state self.old.state }
    {
        self.state = self
            .state
            .wrapping_mul(6_364_136_223_846_793_005)
            .wrapping_add(1_442_695_040_888_963_407);
        if bound == 0 {
            return 0;
        }
        (self.state >> 33) as usize % bound
    }
}
