//! Who answers blocks.
ghost use Rattle.std.specs.Prelude.{◌≡◌, ◌≤◌, List, ℕ, IfOk, OnOk};
ghost use Rattle.decomposition.specs.declared.Mode.{Mode as AMode};
ghost use Rattle.flow_io.specs.Outside.{Rose};
ghost use Rattle.flow_io.specs.declared.status.Status.{Status as AStatus};
ghost use Rattle.graph_text.specs.Blocks.{TextBlock};
ghost use Rattle.program_runs.specs.HandedBlocks.{IsHandedFor};
ghost use Rattle.program_runs.specs.Inputs.{IsDone};
ghost use Rattle.block_runs.specs.Answering.{HasCome, HasAnsweredFew, IsRightAndMayBeCut, Answers, IsCutOff, Finishes, IsCutAtEnd};

use crate::stop::Stop;
use dag_net::Mode;
use flow_io::{Output, Status};
use graph_text::Block;
use std::alloc::Global;

/// Who answers the blocks of an input one after another, each by a piece of the output.
pub trait Worker {
    /// The model that blocks are read for.
    ghost model: { Self → AMode };

    /// The text is right for these blocks, behind which more may come.
    ghost is_right: { Self → List TextBlock → List ℕ → Type 0 };

    /// A fault may cut off an answer: where answers write nothing, none does.
    ghost may_be_cut: { Self → Type 0 };

    /// The text is right for these blocks, which are all, and the run ends with this status.
    ghost is_whole: { Self → AStatus → List TextBlock → List ℕ → Type 0 };

    /// From the first state, which had answered nothing, to the second these blocks were answered by this text.
    ghost comes: { Self → Self → List TextBlock → List ℕ → Type 0 };

    /// The model that blocks are read for.
    fn mode(&self) -> Mode
        ensures { result ≡ model self.now };

    /// Answers one more block. An `Err` for want of memory writes nothing.
    fn answer<O: Output>(&mut self, alloc: Global, block: Block, out: &mut O) -> Result<(), Stop>
        requires handed { (asked : TextBlock) × IsHandedFor (model self.old) asked block }
        requires begun { HasAnsweredFew (λ first. comes first self.old) }
        ensures done { OnOk result (Answers (model self.old) block (λ first. comes first self.old) (λ first. comes first self.new)
            (O.written out.old) (O.written out.new)) }
        ensures memory { result ≡ Err Stop.Memory → O.written out.new ≡ O.written out.old }
        ensures cut { result ≡ Err Stop.Fault → IsCutOff (model self.old) block (λ first. comes first self.old)
            (IsRightAndMayBeCut may_be_cut is_right) (O.written out.old) (O.written out.new) }
        ensures fault { result ≡ Err Stop.Fault → Rose (O.faults out.old) (O.faults out.new) }
        ensures later { O.faults out.old ≤ O.faults out.new };

    /// The input has ended. Answers the status of the run. An `Err` for want of memory writes nothing.
    fn end<O: Output>(&mut self, alloc: Global, out: &mut O) -> Result<Status, Stop>
        requires begun { HasCome (λ first. comes first self.old) }
        ensures done { IfOk result (λ status. IsDone status
            × Finishes (λ first. comes first self.old) (λ first. is_whole first status) (O.written out.old) (O.written out.new)) }
        ensures memory { result ≡ Err Stop.Memory → O.written out.new ≡ O.written out.old }
        ensures cut { result ≡ Err Stop.Fault → IsCutAtEnd (λ first. comes first self.old) is_whole (O.written out.old) (O.written out.new) }
        ensures fault { result ≡ Err Stop.Fault → Rose (O.faults out.old) (O.faults out.new) }
        ensures later { O.faults out.old ≤ O.faults out.new };

    /// The text so far is right.
    ghost right: { (first now : Self) (shown : List TextBlock) (text : List ℕ) → comes first now shown text → is_right first shown text };

    /// The model stays.
    ghost stays: { (first now : Self) (shown : List TextBlock) (text : List ℕ) → comes first now shown text → model now ≡ model first };
}
