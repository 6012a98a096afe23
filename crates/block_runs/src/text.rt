//! The run over a text in memory.
ghost use Rattle.std.specs.Prelude.{◌≡◌, ◌<◌, ◌^◌, [], length};
ghost use Rattle.flow_io.specs.Outside.{Rose};
ghost use Rattle.graph_text.specs.Blocks.{blocks};
ghost use Rattle.block_runs.specs.Answering.{IsRightAndMayBeCut};
ghost use Rattle.block_runs.specs.Underway.{EndsText, status_at};

use crate::answering::{end_run, take_piece};
use crate::stop::{Stop, status_at};
use crate::worker::Worker;
use flow_io::{Output, Status};
use graph_text::BlockReader;
use std::alloc::Global;

/// Answers each block of a text, which is whole, and ends.
pub fn run_text<W: Worker, O: Output>(
    alloc: Global,
    worker: &mut W,
    text: &[u8],
    out: &mut O,
) -> Status
    requires begun { W.comes worker.old worker.old [] [] }
    requires short { length text.now < 2 ^ 63 }
    requires few { length (blocks text.now) < 2 ^ 32 }
    ensures right { EndsText (IsRightAndMayBeCut W.may_be_cut W.is_right worker.old) (W.is_right worker.old) (W.is_whole worker.old)
        text.now result (O.written out.old) (O.written out.new) }
    ensures fault { result ≡ Status.Fault → Rose (O.faults out.old) (O.faults out.new) }
{
    status_at(answer_text(alloc, worker, text, out))
}

/// Answers each block of a text, which is whole, and ends, or stops before.
fn answer_text<W: Worker, O: Output>(
    alloc: Global,
    worker: &mut W,
    text: &[u8],
    out: &mut O,
) -> Result<Status, Stop>
    requires begun { W.comes worker.old worker.old [] [] }
    requires short { length text.now < 2 ^ 63 }
    requires few { length (blocks text.now) < 2 ^ 32 }
    ensures right { EndsText (IsRightAndMayBeCut W.may_be_cut W.is_right worker.old) (W.is_right worker.old) (W.is_whole worker.old)
        text.now (status_at result) (O.written out.old) (O.written out.new) }
    ensures fault { status_at result ≡ Status.Fault → Rose (O.faults out.old) (O.faults out.new) }
{
    let mut reader = BlockReader::new(alloc, worker.mode())?;
    take_piece(alloc, worker, &mut reader, text, out)?;
    end_run(alloc, worker, &mut reader, out)
}
