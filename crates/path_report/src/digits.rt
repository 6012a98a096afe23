//! The digits of a number.
ghost use Rattle.std.specs.Prelude.{◌≡◌, ◌≤◌, decimal, length};

use std::marker::Model;

/// The decimal digits of a number, at the end of a few bytes.
#[derive(Drop)]
pub struct Digits {
    bytes: [u8; 20],
    start: usize,
}

impl Model for Digits {
    ghost use Rattle.std.specs.Prelude.{ℕ, ◌≤◌, List, drop};

    ghost Value = { List ℕ };

    ghost view = { λ d. drop d.start d.bytes };

    ghost invariant = { λ d. d.start ≤ 20 };
}

impl Digits {
    /// The digits of a number. Takes no memory.
    pub fn of(number: u64) -> Digits
        ensures { result ≡ decimal number }
    {
        let mut bytes = [0; 20];
        let mut start = 20;
        let mut left = number;
        while left >= 10 {
            start -= 1;
            bytes[start] = b'0' + (left % 10) as u8;
            left /= 10;
        }
        start -= 1;
        bytes[start] = b'0' + left as u8;
        Digits { bytes, start }
    }

    pub fn as_slice(&self) -> &[u8]
        ensures digits { result.now ≡ self.now }
        ensures few { length result.now ≤ 20 }
    {
        &self.bytes[self.start..]
    }
}
