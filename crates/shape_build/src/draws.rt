// The generator.

ghost use Rattle.std.specs.Prelude.{◌≡◌, ◌+◌, ◌<◌, ◌^◌};
ghost use Rattle.shape_build.specs.Draws.{draw};

use std::marker::Model;

/// What was drawn from a seed. Contracts see the seed, and how many draws were made.
#[derive(Debug, Drop)]
pub struct Draws {
    seed: u64,
    count: u32,
    state: u64,
}

impl Model for Draws {
    ghost use Rattle.std.specs.Prelude.{◌≡◌};
    ghost use Rattle.shape_build.specs.Draws.{Drawn, state_after};

    ghost Value = { Drawn };

    ghost view = { λ d. record { seed = d.seed; count = d.count } };

    ghost invariant = { λ d. d.state ≡ state_after d.count d.seed };
}

impl Draws {
    /// No draw yet.
    #[tactic(auto, unfolding(crate::specs::Draws::state_after, crate::specs::Draws::draw))]
    pub fn from_seed(seed: u64) -> Draws
        ensures { result ≡ record { seed = seed; count = 0 } }
    {
        Draws {
            seed,
            count: 0,
            state: seed,
        }
    }

    /// A draw, below 2^32.
    #[tactic(auto, unfolding(crate::specs::Draws::state_after, crate::specs::Draws::draw))]
    pub fn draw(&mut self) -> u64
        requires { self.old.count < 2 ^ 31 }
        ensures value { result ≡ draw self.old.seed self.old.count }
        ensures next { self.new ≡ record self.old { count = self.old.count + 1 } }
        ensures small { result < 2 ^ 32 }
    {
        let product = u128::from(self.state) * 6364136223846793005;
        self.state = ((product + 1442695040888963407) % 0x1_0000_0000_0000_0000) as u64;
        self.count += 1;
        self.state / 0x1_0000_0000
    }

    /// Makes draws that nobody looks at.
    pub fn skip(&mut self, count: u32)
        requires { self.old.count + count < 2 ^ 31 }
        ensures { self.new ≡ record self.old { count = self.old.count + count } }
    {
        'draws: for _k in 0..count {
            self.draw();
        }
    }
}
