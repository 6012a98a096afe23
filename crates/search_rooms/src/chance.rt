//! Lots: numbers that look drawn, and are the same at each run and on each machine.

const FACTOR: u64 = 48271;

const MODULUS: u64 = 2147483647;

/// A list of lots: the powers of a number modulo a prime.
#[derive(Clone, Copy, Debug)]
pub struct Chance {
    state: u64,
}

impl Chance {
    /// The list of a seed.
    pub fn new(seed: u64) -> Chance {
        Chance {
            state: (seed % 2147483646).saturating_add(1),
        }
    }

    /// The next lot, a number below n, or 0 where n is 0.
    pub fn below(&mut self, n: u32) -> u32 {
        self.state = self.state.wrapping_mul(FACTOR) % MODULUS;
        if n == 0 {
            return 0;
        }
        ((self.state >> 5) % u64::from(n)) as u32
    }
}
