//! An output in memory, of which chosen writes fail.
ghost use Rattle.std.specs.Prelude.{◌≡◌, ◌+◌, ◌≤◌, [], ◌∷◌, ◌++◌, take, Some, is_err, vec_capacity, vec_len, IfOk, OnOk, OnErr};
ghost use Rattle.flow_io.specs.Outside.{HasCause, TakesFront};
ghost use Rattle.flow_io.specs.Sink.{Sink, write_fails, count_taken, written_to, failed_write};

use crate::outside::{Fault, Output};
use std::alloc::{AllocError, Global};
use std::marker::Model;

/// An output in memory. A write takes at most `chunk` bytes, as long as there is room, and chosen writes fail.
#[derive(Debug, Drop)]
pub struct MemOutput {
    chunk: usize,
    room: usize,
    bytes: Vec<u8>,
    failing: Vec<u64>,
    calls: u64,
    faults: u64,
}

impl Model for MemOutput {
    ghost Value = { Sink };

    ghost view = { λ a. record {
      chunk = a.chunk;
      room = a.room;
      bytes = a.bytes.items;
      failing = a.failing.items;
      calls = a.calls;
      faults = a.faults;
    } };

    ghost invariant = { λ a. (1 ≤ a.chunk) × (vec_len a.bytes + a.room ≤ vec_capacity a.bytes) };
}

impl MemOutput {
    /// Takes the whole room at once. No write fails.
    pub fn new(alloc: Global, chunk: usize, room: usize) -> Result<MemOutput, AllocError>
        requires { 1 ≤ chunk }
        ensures { IfOk result (λ out. out ≡ record { chunk = chunk; room = room; bytes = []; failing = []; calls = 0; faults = 0 }) }
    {
        Ok(MemOutput {
            chunk,
            room,
            bytes: Vec::with_capacity(alloc, room)?,
            failing: Vec::new(alloc),
            calls: 0,
            faults: 0,
        })
    }

    /// Lets a write fail. The writes are counted from 0.
    pub fn fail_at(&mut self, call: u64) -> Result<(), AllocError>
        ensures ok { OnOk result (self.new ≡ record self.old { failing = self.old.failing ++ call ∷ [] }) }
        ensures err { OnErr result (self.new ≡ self.old) }
    {
        self.failing.push(call)?;
        Ok(())
    }

    /// What was written.
    pub fn bytes(&self) -> &[u8]
        ensures { result.now ≡ self.now.bytes }
    {
        self.bytes.as_slice()
    }
}

impl Output for MemOutput {
    ghost written = { λ s. Some s.bytes };

    ghost faults = { λ s. s.faults };

    fn write(&mut self, piece: &[u8]) -> Result<usize, Fault>
        ensures ok { IfOk result (λ n. TakesFront (Some self.old.bytes) (Some self.new.bytes) n piece.now) }
        ensures cause { HasCause self.old.faults self.new.faults result }

        // It fails exactly where this write is to fail, or there is no room for a byte of the piece.
        ensures fails { is_err result ≡ write_fails self.old piece.now }
        ensures taken { IfOk result (λ n. n ≡ count_taken self.old piece.now) }
        ensures after { IfOk result (λ n. self.new ≡ written_to (take n piece.now) self.old) }
        ensures failed { OnErr result (self.new ≡ failed_write self.old) }
    {
        let fails = self.failing.contains(&self.calls);
        self.calls = self.calls.saturating_add(1);
        if fails || (self.room == 0 && !piece.is_empty()) {
            self.faults = self.faults.saturating_add(1);
            return Err(Fault);
        }
        let count = piece.len().min(self.chunk).min(self.room);
        self.bytes.extend_from_slice(&piece[..count]).unwrap();
        self.room -= count;
        Ok(count)
    }
}
