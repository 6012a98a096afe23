//! The reading of an input, piece by piece, to its end or to its limit.
ghost use Rattle.std.specs.Prelude.{◌≡◌, ◌⊎◌, [], List, ℕ};
ghost use Rattle.flow_io.specs.Outside.{Rose};
ghost use Rattle.block_runs.specs.Underway.{EndsRight};

use crate::answering::{end_run, take_piece};
use crate::piece::{MOST, ROOM, read_piece};
use crate::stop::status_at;
use crate::worker::Worker;
use flow_io::{Inputs, Output, Status};
use graph_text::BlockReader;
use std::alloc::Global;

/// Reads the selected input to its end, and answers each of its blocks as it comes.
pub fn run_selected<W: Worker, I: Inputs, O: Output>(
    alloc: Global,
    worker: &mut W,
    inputs: &mut I,
    out: &mut O,
) -> Status
    requires begun { W.comes worker.old worker.old [] [] }
    ensures right { EndsRight (W.is_right worker.old) (W.is_whole worker.old) result (I.selected inputs.old) (I.selected inputs.new)
        (O.written out.old) (O.written out.new) (Rose (O.faults out.old) (O.faults out.new)) }
    ensures fault { result ≡ Status.Fault → Rose (I.faults inputs.old) (I.faults inputs.new)
        ⊎ Rose (O.faults out.old) (O.faults out.new) }
    ensures holds { (any : List ℕ) → I.holds inputs.new any ≡ I.holds inputs.old any }
{
    let Ok(mut reader) = BlockReader::new(alloc, worker.mode()) else {
        return Status::Memory;
    };
    let mut buffer = [0; ROOM];
    let mut total = 0;
    while total < MOST {
        let room = (MOST - total).min(ROOM);
        let piece = &mut buffer[..room];
        let Ok(count) = read_piece(inputs, piece) else {
            return Status::Fault;
        };
        if count == 0 {
            return status_at(end_run(alloc, worker, &mut reader, out));
        }
        match take_piece(alloc, worker, &mut reader, &piece[..count], out) {
            Ok(()) => total += count,
            Err(stop) => return stop.status(),
        }
    }
    Status::Long
}
