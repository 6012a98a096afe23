//! The check of one block after another.
ghost use Rattle.std.specs.Prelude.{◌≡◌, ◌<◌, ◌^◌, [], length};
ghost use Rattle.flowcheck_cli.specs.Checking.{Checks, lines_are_right, model_stays};
ghost use Rattle.flowcheck_cli.specs.Run.{AreLines, AreAllLines};

use crate::judging::judge;
use crate::model::model_in;
use crate::outcome::status_after;
use crate::printing::{write_counts, write_outcome};
use crate::rest::{Rest, count_texts};
use block_runs::{Stop, Worker};
use dag_net::Mode;
use flow_io::{Output, Status};
use graph_text::Block;
use std::alloc::Global;

/// How far a check of graphs against reports has come: the model, the texts that are left, how many blocks there were, and the status of
/// the outcomes.
#[derive(Drop)]
pub struct Checking<'a> {
    pub reports: &'a [u8],
    pub mode: Mode,
    pub rest: Rest<'a>,
    pub blocks: u64,
    pub status: Status,
}

impl<'a> Checking<'a> {
    /// A check that has not begun.
    pub fn of(reports: &'a [u8]) -> Checking<'a>
        requires { length reports.now < 2 ^ 30 }
        ensures reports { result.reports.now ≡ reports.now }
        ensures begun { Checks result result [] [] }
    {
        Checking {
            reports,
            mode: model_in(reports),
            rest: Rest::of(reports),
            blocks: 0,
            status: Status::Clean,
        }
    }
}

impl<'a> Worker for Checking<'a> {
    ghost model = { λ w. w.mode };

    ghost is_right = { λ w shown text. AreLines w.reports.now shown text };

    ghost may_be_cut = { λ _. Unit {0} };

    ghost is_whole = { λ w status shown text. AreAllLines w.reports.now status shown text };

    ghost comes = { λ first now shown text. Checks first now shown text };

    fn mode(&self) -> Mode {
        self.mode
    }

    /// Checks a block against the next text, if there is one more, and writes its line.
    fn answer<O: Output>(&mut self, alloc: Global, block: Block, out: &mut O) -> Result<(), Stop> {
        self.blocks += 1;
        let Some(text) = self.rest.take_text() else {
            return Ok(());
        };
        let outcome = judge(alloc, self.mode, &block, text.line, text.bytes)?;
        write_outcome(out, block.index, outcome)?;
        self.status = status_after(self.status, outcome);
        Ok(())
    }

    /// Tells the numbers of blocks and of texts where they differ.
    fn end<O: Output>(&mut self, _alloc: Global, out: &mut O) -> Result<Status, Stop> {
        let texts = count_texts(self.reports);
        if self.blocks == texts {
            return Ok(self.status);
        }
        write_counts(out, self.blocks, texts)?;
        Ok(Status::Refused)
    }

    ghost right = { lines_are_right };

    ghost stays = { model_stays };
}
