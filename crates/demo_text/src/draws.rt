//! The numbers that a seed gives.
ghost use Rattle.std.specs.Prelude.{◌≡◌, ◌<◌, ◌≤◌};
ghost use Rattle.demo_text.specs.Demo.{next_state, drawn};

use std::marker::Model;

/// What the state is multiplied by at a draw.
const MULTIPLIER: u64 = 1_103_515_245;

/// What is added to the state at a draw.
const INCREMENT: u64 = 12_345;

/// The number of states.
const STATES: u64 = 1 << 31;

/// The low part of the state, which is not drawn.
const LOW: u32 = 1 << 16;

/// The state between two draws.
#[derive(Drop)]
pub struct Draws {
    state: u32,
}

impl Model for Draws {
    ghost use Rattle.std.specs.Prelude.{ℕ};

    ghost Value = { ℕ };

    ghost view = { λ draws. draws.state };
}

impl Draws {
    /// The first state is the seed.
    pub fn from_seed(seed: u32) -> Draws
        ensures { result ≡ seed }
    {
        Draws { state: seed }
    }

    /// Draws a number below `n`.
    pub fn draw(&mut self, n: u32) -> u32
        requires { 1 ≤ n }
        ensures state { self.new ≡ next_state self.old }
        ensures drawn { result ≡ drawn n self.new }
        ensures below { result < n }
    {
        let next = (u64::from(self.state) * MULTIPLIER + INCREMENT) % STATES;
        self.state = next as u32;
        self.state / LOW % n
    }
}
