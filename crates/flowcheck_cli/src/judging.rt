//! What the text of a report is answered for a block.
ghost use Rattle.std.specs.Prelude.{◌≡◌, ◌≤◌, ◌<◌, ◌+◌, ◌^◌, length, IfOk, IfErr};
ghost use Rattle.graph_text.specs.Blocks.{TextBlock};
ghost use Rattle.report_reading.specs.BadLines.{first_bad_line, IsTextOf, RefusesAs};
ghost use Rattle.program_runs.specs.HandedBlocks.{IsHandedFor, labels_of};
ghost use Rattle.flowcheck_cli.specs.Outcomes.{IsOutcome, line_of_file, outcome_of};
ghost use Rattle.flowcheck_cli.specs.declared.outcome.Outcome.TheVariants.{Unread};
ghost use Rattle.flowcheck_cli.specs.Short.{IsSmall};

use crate::outcome::Outcome;
use crate::verdicts::verdict_on;
use cert_check::Verdict;
use dag_net::Mode;
use graph_text::{Block, Labels, RawGraph, Refusal};
use report_reading::{ReadFault, ReadRefusal, read_report};
use report_terms::Report;
use std::alloc::{AllocError, Global};

/// What a text that begins at line `at` of the text of reports is answered for a block that the reader handed out.
pub fn judge(
    alloc: Global,
    mode: Mode,
    block: &Block,
    at: u64,
    text: &[u8],
) -> Result<Outcome, AllocError>
    requires handed { (asked : TextBlock) × IsHandedFor mode asked block.now }
    requires short { at + length text.now < 2 ^ 32 }
    ensures { IfOk result (λ outcome. (asked : TextBlock) → IsHandedFor mode asked block.now →
        IsOutcome mode asked at text.now outcome) }
{
    match read_for(alloc, &block.body, text) {
        Ok(report) => {
            let verdict = verdict_on(alloc, mode, block, &report)?;
            Ok(outcome_of(at, verdict))
        }
        Err(ReadFault::Refused(refusal)) => Ok(unread(at, refusal)),
        Err(ReadFault::Memory) => Err(AllocError),
    }
}

/// The report whose text this is, with the labels of the graph, or with none where the block is refused.
fn read_for(
    alloc: Global,
    body: &Result<RawGraph, Refusal>,
    text: &[u8],
) -> Result<Report, ReadFault>
    ensures found { IfOk result (λ report. IsTextOf (labels_of body.now) report text.now) }
    ensures refused { IfErr result (RefusesAs (first_bad_line (labels_of body.now) text.now)) }
{
    match body {
        Ok(graph) => read_report(alloc, text, &graph.labels),
        Err(_) => read_report(alloc, text, &Labels::empty(alloc)),
    }
}

/// A verdict on a report that begins at line `at`, with the line counted in the whole text of reports.
fn outcome_of(at: u64, verdict: Verdict) -> Outcome
    requires early { at < 2 ^ 32 }
    requires small { IsSmall verdict }
    ensures { result ≡ outcome_of at verdict }
{
    match verdict {
        Verdict::Yes => Outcome::Yes,
        Verdict::No { line } => Outcome::No {
            line: at + (line - 1),
        },
    }
}

/// The answer for a text that begins at line `at` and is that of no report.
fn unread(at: u64, refusal: ReadRefusal) -> Outcome
    requires early { at < 2 ^ 32 }
    requires counted { 1 ≤ refusal.line }
    requires near { refusal.line < 2 ^ 36 }
    ensures { result ≡ Unread (line_of_file at refusal.line) refusal.why }
{
    Outcome::Unread {
        line: at + (refusal.line - 1),
        why: refusal.why,
    }
}
