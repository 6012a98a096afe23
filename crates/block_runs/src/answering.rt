//! The answers to the blocks that a piece of the input completes.
ghost use Rattle.std.specs.Prelude.{◌≡◌, ◌≤◌, List, [], ◌++◌, ℕ, Option, IfOk, OnOk, IfSome};
ghost use Rattle.flow_io.specs.Outside.{Rose};
ghost use Rattle.graph_text.specs.Blocks.{TextBlock, blocks, complete};
ghost use Rattle.graph_text.specs.Reader.{waiting_of, IsTaken};
ghost use Rattle.program_runs.specs.HandedBlocks.{IsHandedFor};
ghost use Rattle.program_runs.specs.Inputs.{IsDone};
ghost use Rattle.block_runs.specs.Answering.{HasAnsweredFew, IsRightAndMayBeCut, AnswersWaiting, IsCutWaiting};
ghost use Rattle.block_runs.specs.Texts.{Wrote, IsFirst, Begins, BeginsEnd};
ghost use Rattle.block_runs.specs.Underway.{Underway, IsUnderway};

use crate::stop::Stop;
use crate::worker::Worker;
use flow_io::{Output, Status};
use graph_text::BlockReader;
use std::alloc::Global;

/// Answers the block that waits, if one does.
fn answer_waiting<W: Worker, O: Output>(
    alloc: Global,
    worker: &mut W,
    reader: &mut BlockReader,
    out: &mut O,
) -> Result<(), Stop>
    requires handed { IfSome (waiting_of reader.old) (λ block. (asked : TextBlock) × IsHandedFor (W.model worker.old) asked block) }
    requires begun { HasAnsweredFew (λ first. W.comes first worker.old) }
    ensures done { OnOk result (AnswersWaiting (W.model worker.old) (waiting_of reader.old) (λ first. W.comes first worker.old)
        (λ first. W.comes first worker.new) (O.written out.old) (O.written out.new)) }
    ensures memory { result ≡ Err Stop.Memory → O.written out.new ≡ O.written out.old }
    ensures cut { result ≡ Err Stop.Fault → IsCutWaiting (W.model worker.old) (waiting_of reader.old) (λ first. W.comes first worker.old)
        (IsRightAndMayBeCut W.may_be_cut W.is_right) (O.written out.old) (O.written out.new) }
    ensures fault { result ≡ Err Stop.Fault → Rose (O.faults out.old) (O.faults out.new) }
    ensures later { O.faults out.old ≤ O.faults out.new }
    ensures reader { IsTaken reader.old reader.new }
{
    match reader.take() {
        Some(block) => worker.answer(alloc, block, out),
        None => Ok(()),
    }
}

/// Gives a piece of the input to the reader, and answers each block that it completes.
pub(crate) fn take_piece<W: Worker, O: Output>(
    alloc: Global,
    worker: &mut W,
    reader: &mut BlockReader,
    piece: &[u8],
    out: &mut O,
) -> Result<(), Stop>
    requires underway { IsUnderway W.model (λ first. W.comes first worker.old) reader.old piece.now (O.written out.old) }
    ensures done { OnOk result ((first : W) (bytes : List ℕ) (before : Option (List ℕ)) →
        Underway (W.model first) (W.comes first worker.old) reader.old bytes before (O.written out.old) →
        Underway (W.model first) (W.comes first worker.new) reader.new (bytes ++ piece.now) before (O.written out.new)) }
    ensures memory { result ≡ Err Stop.Memory → (first : W) (bytes : List ℕ) (before : Option (List ℕ)) →
        Underway (W.model first) (W.comes first worker.old) reader.old bytes before (O.written out.old) →
        Wrote (IsFirst (W.is_right first) (complete (bytes ++ piece.now))) before (O.written out.new) }
    ensures cut { result ≡ Err Stop.Fault → (first : W) (bytes : List ℕ) (before : Option (List ℕ)) →
        Underway (W.model first) (W.comes first worker.old) reader.old bytes before (O.written out.old) →
        Wrote (Begins (IsRightAndMayBeCut W.may_be_cut W.is_right first) (complete (bytes ++ piece.now))) before (O.written out.new) }
    ensures fault { result ≡ Err Stop.Fault → Rose (O.faults out.old) (O.faults out.new) }
    ensures later { O.faults out.old ≤ O.faults out.new }
{
    let mut done = 0;
    while done < piece.len() {
        done += reader.feed(&piece[done..])?;
        answer_waiting(alloc, worker, reader, out)?;
    }
    Ok(())
}

/// The input has ended: answers the last block, if there is one, and ends.
pub(crate) fn end_run<W: Worker, O: Output>(
    alloc: Global,
    worker: &mut W,
    reader: &mut BlockReader,
    out: &mut O,
) -> Result<Status, Stop>
    requires underway { IsUnderway W.model (λ first. W.comes first worker.old) reader.old [] (O.written out.old) }
    ensures done { IfOk result (λ status. IsDone status × ((first : W) (bytes : List ℕ) (before : Option (List ℕ)) →
        Underway (W.model first) (W.comes first worker.old) reader.old bytes before (O.written out.old) →
        Wrote (W.is_whole first status (blocks bytes)) before (O.written out.new))) }
    ensures memory { result ≡ Err Stop.Memory → (first : W) (bytes : List ℕ) (before : Option (List ℕ)) →
        Underway (W.model first) (W.comes first worker.old) reader.old bytes before (O.written out.old) →
        Wrote (IsFirst (W.is_right first) (blocks bytes)) before (O.written out.new) }
    ensures cut { result ≡ Err Stop.Fault → (first : W) (bytes : List ℕ) (before : Option (List ℕ)) →
        Underway (W.model first) (W.comes first worker.old) reader.old bytes before (O.written out.old) →
        Wrote (BeginsEnd (IsRightAndMayBeCut W.may_be_cut W.is_right first) (W.is_whole first) (blocks bytes)) before (O.written out.new) }
    ensures fault { result ≡ Err Stop.Fault → Rose (O.faults out.old) (O.faults out.new) }
    ensures later { O.faults out.old ≤ O.faults out.new }
{
    reader.finish()?;
    answer_waiting(alloc, worker, reader, out)?;
    worker.end(alloc, out)
}
