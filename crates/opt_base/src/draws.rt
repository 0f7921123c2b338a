ghost use Rattle.std.specs.Prelude.{◌≡◌, ◌<◌};
ghost use Rattle.opt_base.specs.Draws.{number_drawn, state_after};

use std::marker::Model;

/// Draws numbers from a seed, always the same from the same seed: a linear congruential generator modulo 2^64.
#[derive(Debug, Drop)]
pub struct Draws {
    state: u64,
}

impl Model for Draws {
    ghost use Rattle.std.specs.Prelude.{ℕ};

    ghost Value = { ℕ };

    ghost view = { λ d. d.state };
}

impl Draws {
    /// The draws that begin with this state.
    pub fn new(seed: u64) -> Draws
        ensures { result ≡ seed }
    {
        Draws { state: seed }
    }

    /// A number below `k`. Where nothing lies below `k` it is 0, and the state stays.
    pub fn below(&mut self, k: u64) -> u64
        ensures number { result ≡ number_drawn self.old k }
        ensures state { self.new ≡ state_after self.old k }
        ensures small { 0 < k → result < k }
    {
        if k == 0 {
            return 0;
        }
        self.state = self
            .state
            .wrapping_mul(6_364_136_223_846_793_005)
            .wrapping_add(1_442_695_040_888_963_407);
        (self.state >> 33) % k
    }
}
