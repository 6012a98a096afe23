//! Whether a report is right for a block, and which of its lines is the first that is wrong.
ghost use Rattle.std.specs.Prelude.{◌≡◌, Ok, Err, IfOk, MatchBool};
ghost use Rattle.decomposition.specs.declared.Mode.{Mode as AMode};
ghost use Rattle.graph_text.specs.Accepted.{IsAccepted};
ghost use Rattle.flowcheck_cli.specs.Outcomes.{NamesBlock, NamesOther, IsBodyVerdict, IsReportVerdict};
ghost use Rattle.flowcheck_cli.specs.Short.{HasFewLines, IsSmall};

use cert_check::{Verdict, check_report};
use dag_net::Mode;
use graph_text::{Block, RawGraph, Refusal};
use program_runs::problem_of;
use report_terms::{Body, Report};
use std::alloc::{AllocError, Global};

/// What a report is for a block and the model for reading. Lines are counted in the text of the report.
pub fn verdict_on(
    alloc: Global,
    mode: Mode,
    block: &Block,
    report: &Report,
) -> Result<Verdict, AllocError>
    requires valid { IfOk block.now.body (IsAccepted mode) }
    requires few { HasFewLines report.now.body }
    ensures exact { IfOk result (IsReportVerdict mode block.now report.now) }
    ensures small { IfOk result IsSmall }
{
    if !names_block(report, block) {
        return Ok(Verdict::No { line: 1 });
    }
    if report.mode != mode {
        return Ok(Verdict::No { line: 2 });
    }
    match &block.body {
        Ok(graph) => verdict_on_graph(alloc, mode, graph, report),
        Err(refusal) => Ok(verdict_on_refusal(*refusal, &report.body)),
    }
}

/// Whether a report names the block.
fn names_block(report: &Report, block: &Block) -> bool
    ensures { MatchBool result (NamesBlock block.now report.now) (NamesOther block.now report.now) }
{
    report.index == block.index && report.name.as_slice() == block.name.as_slice()
}

/// What a body is for a block that is refused.
fn verdict_on_refusal(refusal: Refusal, body: &Body) -> Verdict
    ensures exact { (mode : AMode) → IsBodyVerdict mode (Err refusal) body.now result }
    ensures small { IsSmall result }
{
    match body {
        Body::Refused(other) if *other == refusal => Verdict::Yes,
        _ => Verdict::No { line: 3 },
    }
}

/// What a report that names the model is for a graph.
fn verdict_on_graph(
    alloc: Global,
    mode: Mode,
    graph: &RawGraph,
    report: &Report,
) -> Result<Verdict, AllocError>
    requires valid { IsAccepted mode graph.now }
    requires few { HasFewLines report.now.body }
    requires model { report.now.mode ≡ mode }
    ensures exact { IfOk result (IsBodyVerdict mode (Ok graph.now) report.now.body) }
    ensures small { IfOk result IsSmall }
{
    let problem = problem_of(alloc, graph)?;
    check_report(alloc, &graph.net, &problem, &mode, report)
}
