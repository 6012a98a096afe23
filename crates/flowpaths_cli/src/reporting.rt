//! The worker that writes a report for each block.
ghost use Rattle.std.specs.Prelude.{◌≡◌, ◌≤◌, ◌∷◌, [], ◌++◌, List, IfOk, IfErr, IsTrue};
ghost use Rattle.report_terms.specs.declared.report.Report.{Report as AReport};
ghost use Rattle.graph_text.specs.Accepted.{IsAccepted};
ghost use Rattle.report_reading.specs.ReportText.{is_regular_body};
ghost use Rattle.flowpaths_cli.specs.Right.{status_of, AreBuilt, BodyRight, labels_of};
ghost use Rattle.flowpaths_cli.specs.Run.{IsOutput, IsOutputWith};
ghost use Rattle.flowpaths_cli.specs.Reporting.{HasReported, model_stays};

use crate::settings::Settings;
use crate::solving::solve_block;
use block_runs::{Stop, Worker};
use dag_net::Mode;
use flow_io::{Output, Status};
use graph_text::{Block, Labels, RawGraph, Refusal};
use path_report::write_report;
use report_terms::{Body, Mark, Report};
use std::alloc::{AllocError, Global};

/// Reports blocks under settings. The status is that of the reports so far.
#[derive(Drop)]
pub struct Reporting<'a> {
    pub settings: &'a Settings,
    pub status: Status,
}

/// The status of the reports so far and of one more.
fn status_after(status: Status, body: &Body) -> Status
    ensures { (reports : List AReport) (report : AReport) → status ≡ status_of reports → report.body ≡ body.now
        → result ≡ status_of (reports ++ report ∷ []) }
{
    match body {
        Body::Refused(_) => Status::Refused,
        Body::Solved(solved) => match (status, solved.mark) {
            (Status::Clean, Mark::Bounds) => Status::Partial,
            _ => status,
        },
    }
}

/// What is said of a block that is read so, with the labels for its report.
pub fn solve_body(
    alloc: Global,
    settings: &Settings,
    body: Result<RawGraph, Refusal>,
) -> Result<(Body, Labels), AllocError>
    requires built { AreBuilt settings.now }
    requires valid { IfOk body (IsAccepted settings.now.mode) }
    requires numbered { IfErr body (λ refusal. 1 ≤ refusal.line) }
    ensures right { IfOk result (λ found. BodyRight settings.now body found.0) }
    ensures labels { IfOk result (λ found. found.1 ≡ labels_of body) }
    ensures regular { IfOk result (λ found. IsTrue (is_regular_body found.1 found.0)) }
{
    match body {
        Ok(graph) => {
            let solved = solve_block(alloc, &graph, settings)?;
            Ok((Body::Solved(solved), graph.labels))
        }
        Err(refusal) => Ok((Body::Refused(refusal), Labels::empty(alloc))),
    }
}

impl<'a> Worker for Reporting<'a> {
    ghost model = { λ w. w.settings.now.mode };

    ghost is_right = { λ w. IsOutput w.settings.now };

    ghost may_be_cut = { λ _. Unit {0} };

    ghost is_whole = { λ w. IsOutputWith w.settings.now };

    ghost comes = { λ first now shown text. HasReported first now shown text };

    fn mode(&self) -> Mode {
        self.settings.mode
    }

    /// Solves a block and writes its report.
    fn answer<O: Output>(&mut self, alloc: Global, block: Block, out: &mut O) -> Result<(), Stop> {
        let Block {
            index,
            line: _,
            name,
            body,
        } = block;
        let (body, labels) = solve_body(alloc, self.settings, body)?;
        let report = Report {
            index,
            name,
            mode: self.settings.mode,
            body,
        };
        write_report(out, &report, &labels)?;
        self.status = status_after(self.status, &report.body);
        Ok(())
    }

    fn end<O: Output>(&mut self, _alloc: Global, _out: &mut O) -> Result<Status, Stop> {
        Ok(self.status)
    }

    ghost right = { λ first now shown text h. (h.output.0, h.output.1) };

    ghost stays = { λ first now shown text h. model_stays first now shown text h };
}
