//! The reader of blocks.
ghost use Rattle.std.specs.Prelude.{◌≡◌, ℕ, ◌+◌, ◌^◌, ◌<◌, ◌≤◌, List, length, true, false, Ok, None, IsErr, IsSome, IfOk, OnOk, OnErr};
ghost use Rattle.graph_text.specs.Cutter.{IsCounted};

use crate::block::Block;
use crate::cutter::Cutter;
use dag_net::Mode;
use std::alloc::{AllocError, Global};

/// Cuts a text into blocks and reads them, however the bytes of the text are cut into pieces.
#[derive(Drop)]
pub struct BlockReader {
    cutter: Cutter,
    waiting: Option<Block>,
    has_failed: bool,
    has_finished: bool,
    ghost none_waits: { has_failed ≡ true → waiting ≡ None },
    ghost counted: { has_failed ≡ false → has_finished ≡ false → IsCounted cutter },
}

impl BlockReader {
    ghost use Rattle.graph_text.specs.Reader.{StandsFor, mode_of, line_of, waiting_of, has_failed, has_finished, Feeds, Ends, IsNew, HasFailed, IsTaken};

    /// A reader that has taken nothing.
    pub fn new(alloc: Global, mode: Mode) -> Result<BlockReader, AllocError>
        ensures { IfOk result (IsNew mode) }
    {
        Ok(BlockReader {
            cutter: Cutter::new(alloc, mode),
            waiting: None,
            has_failed: false,
            has_finished: false,
        })
    }

    /// Takes bytes from the front of the piece, and answers how many. After an `Err` the reader has failed.
    pub fn feed(&mut self, piece: &[u8]) -> Result<usize, AllocError>
        requires goes_on { has_finished self.old ≡ false }
        requires lines_fit { has_failed self.old ≡ false → line_of self.old + length piece.now < 2 ^ 64 }

        // While a block waits nothing is taken.
        ensures waits { IsSome (waiting_of self.old) → (result ≡ Ok 0) × (self.new ≡ self.old) }

        // Else the bytes up to the first `#` that completes a block are taken, or the whole piece.
        ensures count { IfOk result (λ n. n ≤ length piece.now) }
        ensures feeds { waiting_of self.old ≡ None → IfOk result (λ n. (bytes : List ℕ) → StandsFor self.old bytes
            → Feeds self.old self.new bytes piece.now n) }
        ensures works { OnOk result (has_failed self.new ≡ false) }

        // A reader that has failed answers `Err` from then on.
        ensures err { OnErr result (HasFailed self.new) }
        ensures failed { has_failed self.old ≡ true → IsErr result }
        ensures mode { mode_of self.new ≡ mode_of self.old }
        ensures finished { has_finished self.new ≡ has_finished self.old }
    {
        if self.has_failed {
            return Err(AllocError);
        }
        if self.waiting.is_some() {
            return Ok(0);
        }
        match self.cutter.read(piece) {
            Ok((taken, block)) => {
                self.waiting = block;
                Ok(taken)
            }
            Err(error) => {
                self.has_failed = true;
                Err(error)
            }
        }
    }

    /// Says that the input has ended: a last block, if there is one, is complete. After an `Err` the reader has failed.
    pub fn finish(&mut self) -> Result<(), AllocError>
        requires goes_on { has_finished self.old ≡ false }
        requires none_waits { waiting_of self.old ≡ None }
        ensures ends { OnOk result ((bytes : List ℕ) → StandsFor self.old bytes → Ends self.old self.new bytes) }
        ensures works { OnOk result (has_failed self.new ≡ false) }
        ensures finished { OnOk result (has_finished self.new ≡ true) }

        // After an `Err` no block waits and it has not answered Ok, so it may be called again; a reader that has failed answers `Err` from then on.
        ensures err { OnErr result (HasFailed self.new) }
        ensures unfinished { OnErr result (has_finished self.new ≡ false) }
        ensures failed { has_failed self.old ≡ true → IsErr result }
        ensures mode { mode_of self.new ≡ mode_of self.old }
    {
        if self.has_failed {
            return Err(AllocError);
        }
        match self.cutter.end() {
            Ok(block) => {
                self.waiting = block;
                self.has_finished = true;
                Ok(())
            }
            Err(error) => {
                self.has_failed = true;
                Err(error)
            }
        }
    }

    /// Hands out the complete block that waits, if one does. Takes no memory.
    pub fn take(&mut self) -> Option<Block>
        ensures waiting { result ≡ waiting_of self.old }
        ensures rest { IsTaken self.old self.new }
    {
        self.waiting.take()
    }
}
