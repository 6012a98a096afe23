//! The run over a generated text, which writes four lines on all of its graphs.
ghost use Rattle.std.specs.Prelude.{◌≡◌, ◌≤◌, []};
ghost use Rattle.decomposition.specs.declared.Mode.TheVariants.{Exact};
ghost use Rattle.flow_io.specs.Outside.{Rose};
ghost use Rattle.flowpaths_cli.specs.Generated.{EndsSolved, WritesCounts, IsToldWith, HasCounted, model_stays};
ghost use Rattle.flowpaths_cli.specs.Numbers.{most_seed};
ghost use Rattle.flowpaths_cli.specs.Right.{AreBuilt};
ghost use Rattle.flowpaths_cli.specs.Run.{WhereWritten};

use crate::reporting::solve_body;
use crate::settings::Settings;
use crate::tally::Tally;
use block_runs::{Stop, Worker, run_text};
use dag_net::Mode;
use demo_text::demo;
use flow_io::{Output, Status, write_whole};
use graph_text::Block;
use std::alloc::Global;

/// Counts what is said of the graphs of a text, and tells the counts at the end.
#[derive(Drop)]
pub struct Counting<'a> {
    pub settings: &'a Settings,
    pub tally: Tally,
}

impl<'a> Worker for Counting<'a> {
    ghost model = { λ w. w.settings.now.mode };

    ghost is_right = { λ _ _ text. text ≡ [] };

    ghost may_be_cut = { λ _. ⊥ };

    ghost is_whole = { λ w status shown text. IsToldWith w.settings.now status shown text };

    ghost comes = { λ first now shown text. HasCounted first now shown text };

    fn mode(&self) -> Mode {
        self.settings.mode
    }

    fn answer<O: Output>(&mut self, alloc: Global, block: Block, _out: &mut O) -> Result<(), Stop> {
        let Block {
            index: _,
            line: _,
            name: _,
            body,
        } = block;
        let (body, _) = solve_body(alloc, self.settings, body)?;
        self.tally.add(&body);
        Ok(())
    }

    /// Writes the four lines of the counts.
    fn end<O: Output>(&mut self, alloc: Global, out: &mut O) -> Result<Status, Stop> {
        let lines = self.tally.lines(alloc)?;
        write_whole(out, lines.as_bytes())?;
        Ok(self.tally.status())
    }

    ghost right = { λ first now shown text h. h.nothing };

    ghost stays = { λ first now shown text h. model_stays first now shown text h };
}

/// Solves the graphs of the text that a seed gives, and writes four lines on them.
pub fn report_generated<O: Output>(
    alloc: Global,
    settings: &Settings,
    seed: u64,
    out: &mut O,
) -> Status
    requires built { AreBuilt settings.now }
    requires exact { settings.now.mode ≡ Exact }
    requires seed { seed ≤ most_seed }
    ensures ends { EndsSolved result (Rose (O.faults out.old) (O.faults out.new)) }
    ensures writes { WhereWritten (O.written out.old) (O.written out.new) (WritesCounts settings.now seed result) }
{
    let Ok(text) = demo(alloc, seed as u32) else {
        return Status::Memory;
    };
    let mut counting = Counting {
        settings,
        tally: Tally::new(),
    };
    run_text(alloc, &mut counting, text.as_slice(), out)
}
