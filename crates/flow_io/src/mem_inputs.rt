//! Named inputs in memory, of which chosen calls fail.
ghost use Rattle.std.specs.Prelude.{◌≡◌, ◌≤◌, [], ◌∷◌, ◌++◌, length, min, Option, Some, None, option_map, is_err, IfOk, OnOk, OnErr, bytes_eq};
ghost use Rattle.std.specs.List.{position};
ghost use Rattle.flow_io.specs.Outside.{HasCause, Puts, skipped};
ghost use Rattle.flow_io.specs.Counter.{counted};
ghost use Rattle.flow_io.specs.Store.{Store, held_in, is_to_fail, select_fails, count_given, added, after_call, after_fault};

use crate::bytes::Bytes;
use crate::front::copy_front;
use crate::outside::{Fault, Inputs};
use crate::word::Word;
use std::alloc::{AllocError, Global};
use std::marker::Model;

/// A place in one of the inputs: the bytes before it were taken.
#[derive(Clone, Copy, Debug)]
struct Place {
    input: usize,
    taken: usize,
}

/// Named inputs in memory. A read gives at most `chunk` bytes, and chosen calls fail.
#[derive(Debug, Drop)]
pub struct MemInputs {
    alloc: Global,
    chunk: usize,
    inputs: Vec<(Word, Bytes)>,
    failing: Vec<u64>,
    calls: u64,
    selected: Option<Place>,
    faults: u64,
}

impl Model for MemInputs {
    ghost use Rattle.flow_io.specs.Store.{Store};
    ghost use Rattle.flow_io.specs.Kept.{selected_at, IsKept};

    ghost Value = { Store };

    ghost view = { λ a. record {
      chunk = a.chunk;
      inputs = a.inputs.items;
      failing = a.failing.items;
      calls = a.calls;
      selected = selected_at a.inputs.items a.selected;
      faults = a.faults;
    } };

    ghost invariant = { λ a. IsKept a.chunk a.inputs.items a.selected };
}

/// The place of the input of this name, if there is one.
fn place_of(inputs: &[(Word, Bytes)], name: &str) -> Option<usize>
    ensures { result ≡ position (λ input. bytes_eq input.0 name.now) inputs.now }
{
    inputs.iter().position(|input| input.0.as_str() == name)
}

impl MemInputs {
    /// No inputs, and no call that fails.
    pub fn new(alloc: Global, chunk: usize) -> MemInputs
        requires { 1 ≤ chunk }
        ensures { result ≡ record { chunk = chunk; inputs = []; failing = []; calls = 0; selected = None; faults = 0 } }
    {
        MemInputs {
            alloc,
            chunk,
            inputs: Vec::new(alloc),
            failing: Vec::new(alloc),
            calls: 0,
            selected: None,
            faults: 0,
        }
    }

    /// Adds an input, in place of an earlier one of this name.
    pub fn add(&mut self, name: &str, bytes: &[u8]) -> Result<(), AllocError>
        ensures ok { OnOk result (self.new ≡ added name.now bytes.now self.old) }
        ensures err { OnErr result (self.new ≡ self.old) }
    {
        let word = Word::from_string(String::from_str(self.alloc, name)?);
        let held = Bytes::from_vec(Vec::from_slice(self.alloc, bytes)?);
        self.inputs.insert(0, (word, held))?;
        self.selected = None;
        Ok(())
    }

    /// Lets a call fail. The calls of `select` and `read` are counted together from 0.
    pub fn fail_at(&mut self, call: u64) -> Result<(), AllocError>
        ensures ok { OnOk result (self.new ≡ record self.old { failing = self.old.failing ++ call ∷ [] }) }
        ensures err { OnErr result (self.new ≡ self.old) }
    {
        self.failing.push(call)?;
        Ok(())
    }

    /// Counts a call, and says whether it is to fail.
    fn count_call(&mut self) -> bool
        ensures fails { result ≡ is_to_fail self.old }
        ensures counts { self.new ≡ record self.old { calls = counted self.old.calls } }
    {
        let fails = self.failing.contains(&self.calls);
        self.calls = self.calls.saturating_add(1);
        fails
    }

    /// Counts a fault.
    fn fault(&mut self) -> Fault
        ensures counts { self.new ≡ record self.old { faults = counted self.old.faults } }
        ensures later { self.old.faults ≤ self.new.faults }
    {
        self.faults = self.faults.saturating_add(1);
        Fault
    }
}

impl Inputs for MemInputs {
    ghost may_ask = { λ _ _. Unit {0} };

    ghost holds = { λ s name. Some (held_in s.inputs name) };

    ghost selected = { λ s. Some s.selected };

    ghost faults = { λ s. s.faults };

    fn select(&mut self, name: &str) -> Result<(), Fault>
        ensures cause { HasCause self.old.faults self.new.faults result }

        // It fails exactly where this call is to fail or no input of the name was added.
        ensures fails { is_err result ≡ select_fails self.old name.now }
        ensures started { OnOk result (self.new ≡ after_call
            (Some (record { name = name.now; left = held_in self.old.inputs name.now })) self.old) }
        ensures failed { OnErr result (self.new ≡ after_fault None self.old) }
    {
        self.selected = None;
        if self.count_call() {
            return Err(self.fault());
        }
        match place_of(self.inputs.as_slice(), name) {
            Some(input) => {
                self.selected = Some(Place { input, taken: 0 });
                Ok(())
            }
            None => Err(self.fault()),
        }
    }

    fn read(&mut self, into: &mut [u8]) -> Result<usize, Fault>
        ensures count { IfOk result (λ n. n ≤ length into.new) }
        ensures bytes { IfOk result (λ n. Puts (Some self.old.selected) n into.new) }
        ensures cause { HasCause self.old.faults self.new.faults result }

        // It fails exactly where this call is to fail, and gives as many bytes as it can.
        ensures fails { is_err result ≡ is_to_fail self.old }
        ensures given { IfOk result (λ n. n ≡ count_given self.old (length into.old)) }
        ensures after { IfOk result (λ n. self.new ≡ after_call (option_map (skipped n) self.old.selected) self.old) }
        ensures failed { OnErr result (self.new ≡ after_fault self.old.selected self.old) }
    {
        if self.count_call() {
            return Err(self.fault());
        }
        let Some(place) = self.selected else {
            return Ok(0);
        };
        let left = &self.inputs[place.input].1.as_slice()[place.taken..];
        let count = copy_front(&left[..left.len().min(self.chunk)], into);
        self.selected = Some(Place {
            input: place.input,
            taken: place.taken + count,
        });
        Ok(count)
    }
}
