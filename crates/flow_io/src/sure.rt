//! Inputs and outputs that never fail.
ghost use Rattle.std.specs.Prelude.{◌≡◌, ◌⊎◌, ◌+◌, ◌-◌, ◌^◌, ℕ, min, length, Some, None};
ghost use Rattle.flow_io.specs.Memory.{held_by};

use crate::front::copy_front;
use crate::outside::{Fault, Inputs, Output};
use std::marker::Model;

/// Which of two inputs is selected.
#[derive(Clone, Copy)]
enum Choice {
    Nothing,
    First,
    Second,
}

/// Two named inputs that never fail. No other name may be asked for.
#[derive(Drop)]
pub struct SureInputs<'a> {
    first_name: &'a str,
    first: &'a [u8],
    second_name: &'a str,
    second: &'a [u8],
    choice: Choice,
    left: &'a [u8],
}

impl<'a> Model for SureInputs<'a> {
    ghost use Rattle.std.specs.Prelude.{◌≡◌, []};
    ghost use Rattle.flow_io.specs.Memory.{TwoInputs, selection};
    ghost use Rattle.flow_io.specs.declared.sure.Choice.TheVariants.{Nothing};

    ghost Value = { TwoInputs };

    ghost view = { λ a. record {
      first_name = a.first_name.now;
      first = a.first.now;
      second_name = a.second_name.now;
      second = a.second.now;
      selected = selection a.choice a.first_name.now a.second_name.now a.left.now;
    } };

    ghost invariant = { λ a. a.choice ≡ Nothing → a.left.now ≡ [] };
}

impl<'a> SureInputs<'a> {
    /// Where both names are equal, the name holds the first bytes. No input is selected.
    pub fn new(n1: &'a str, b1: &'a [u8], n2: &'a str, b2: &'a [u8]) -> SureInputs<'a>
        ensures { result ≡ record { first_name = n1.now; first = b1.now; second_name = n2.now; second = b2.now; selected = None } }
    {
        SureInputs {
            first_name: n1,
            first: b1,
            second_name: n2,
            second: b2,
            choice: Choice::Nothing,
            left: &[],
        }
    }
}

impl<'a> Inputs for SureInputs<'a> {
    ghost may_ask = { λ s name. (name ≡ s.first_name) ⊎ (name ≡ s.second_name) };

    ghost holds = { λ s name. Some (held_by s.first_name s.first s.second_name s.second name) };

    ghost selected = { λ s. Some s.selected };

    ghost faults = { λ _. 0 };

    fn select(&mut self, name: &str) -> Result<(), Fault> {
        if name == self.first_name {
            self.choice = Choice::First;
            self.left = self.first;
        } else {
            self.choice = Choice::Second;
            self.left = self.second;
        }
        Ok(())
    }

    fn read(&mut self, into: &mut [u8]) -> Result<usize, Fault> {
        let count = copy_front(self.left, into);
        self.left = &self.left[count..];
        Ok(count)
    }
}

/// Counts the bytes that it takes, up to the last value of the counter, and keeps none.
#[derive(Drop)]
pub struct SureOutput {
    taken: u64,
}

impl Model for SureOutput {
    ghost Value = { ℕ };

    ghost view = { λ out. out.taken };
}

impl SureOutput {
    pub fn new() -> SureOutput
        ensures { result ≡ 0 }
    {
        SureOutput { taken: 0 }
    }

    /// How many bytes were taken.
    pub fn taken(&self) -> u64
        ensures { result ≡ self.now }
    {
        self.taken
    }
}

impl Output for SureOutput {
    ghost written = { λ _. None };

    ghost faults = { λ _. 0 };

    fn write(&mut self, piece: &[u8]) -> Result<usize, Fault>
        ensures all { result ≡ Ok (length piece.now) }
        ensures counts { self.new ≡ min (self.old + length piece.now) (2 ^ 64 - 1) }
    {
        self.taken = self.taken.saturating_add(piece.len() as u64);
        Ok(piece.len())
    }
}
