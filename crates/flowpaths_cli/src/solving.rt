//! What a block is answered.
ghost use Rattle.std.specs.Prelude.{◌≤◌, length, IfOk};
ghost use Rattle.decomposition.specs.Instance.{IsInstance};
ghost use Rattle.graph_text.specs.Reading.{instance_of, most_constraints};
ghost use Rattle.flowpaths_cli.specs.Right.{SolvedRight};
ghost use Rattle.flowpaths_cli.specs.Solving.{AreForSolving, IsRegularFor, IsReportable};

use crate::settings::Settings;
use flow_solver::solve;
use graph_text::RawGraph;
use program_runs::problem_of;
use report_terms::Solved;
use std::alloc::{AllocError, Global};

/// Solves a graph. A report of the answer is accepted by a check of its certificate, and has a text for all labels that have the edges of the net and a name for
/// each of its vertices.
pub fn solve_block(
    alloc: Global,
    graph: &RawGraph,
    settings: &Settings,
) -> Result<Solved, AllocError>
    requires ready { AreForSolving settings.now }
    requires valid { IsInstance settings.now.mode (instance_of graph.now) }
    requires few_runs { length graph.now.runs ≤ most_constraints }
    ensures right { IfOk result (SolvedRight settings.now (instance_of graph.now)) }
    ensures regular { IfOk result (IsRegularFor graph.now.net) }
    ensures reportable { IfOk result (IsReportable settings.now (instance_of graph.now)) }
{
    let problem = problem_of(alloc, graph)?;
    solve(alloc, &graph.net, &problem, settings.asked())
}
