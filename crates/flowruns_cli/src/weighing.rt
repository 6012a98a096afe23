//! The worker that answers each block by the least loads of its runs.
ghost use Rattle.std.specs.Prelude.{◌≡◌, ◌∷◌, [], ◌++◌, List};
ghost use Rattle.graph_text.specs.Blocks.{TextBlock};
ghost use Rattle.graph_text.specs.Reader.{handed};
ghost use Rattle.flowruns_cli.specs.RightTexts.{runs_mode, status_of, AreRightTexts, AreAllRightTexts};
ghost use Rattle.flowruns_cli.specs.Weighing.{HasAnswered};

use crate::answers::block_text;
use block_runs::{Stop, Worker};
use dag_net::Mode;
use flow_io::{Output, Status, write_whole};
use graph_text::Block;
use std::alloc::Global;

/// Answers blocks. The status is that of a run over the blocks so far.
#[derive(Drop)]
pub struct Weighing {
    pub status: Status,
}

/// The status of a run over the blocks so far and one more.
fn status_after(status: Status, block: &Block) -> Status
    ensures { (shown : List TextBlock) (asked : TextBlock) → status ≡ status_of shown → handed runs_mode asked ≡ block.now
        → result ≡ status_of (shown ++ asked ∷ []) }
{
    match block.body {
        Ok(_) => status,
        Err(_) => Status::Refused,
    }
}

impl Worker for Weighing {
    ghost model = { λ _. runs_mode };

    ghost is_right = { λ _. AreRightTexts };

    ghost may_be_cut = { λ _. Unit {0} };

    ghost is_whole = { λ _. AreAllRightTexts };

    ghost comes = { λ _ now shown text. HasAnswered now shown text };

    fn mode(&self) -> Mode {
        Mode::Exact
    }

    /// Writes the text for a block.
    fn answer<O: Output>(&mut self, alloc: Global, block: Block, out: &mut O) -> Result<(), Stop> {
        let text = block_text(alloc, &block)?;
        write_whole(out, &text)?;
        self.status = status_after(self.status, &block);
        Ok(())
    }

    fn end<O: Output>(&mut self, _alloc: Global, _out: &mut O) -> Result<Status, Stop> {
        Ok(self.status)
    }

    ghost right = { λ _ now shown text h. h.0 };

    ghost stays = { λ _ now shown text h. cc };
}
