//! The line of the safe runs.

ghost use Rattle.std.specs.Prelude.{◌≡◌, ◌≤◌, ◌↔◌, length, slice_index, map, All, IsTrue, IfOk};
ghost use Rattle.decomposition.specs.Graph.{edge_count};
ghost use Rattle.decomposition.specs.Flow.{IsBalanced, Decomposes};
ghost use Rattle.decomposition.specs.declared.Mode.TheVariants.{Exact};
ghost use Rattle.decomposition.specs.Instance.{IsInstance};
ghost use Rattle.decomposition.specs.SafeRuns.{IsSafe, AreMaximal};
ghost use Rattle.flow_models.specs.Problem.{instance};
ghost use Rattle.cert_check.specs.Verdict.{Holds};
ghost use Rattle.cert_check.specs.Verdict.Line.{SafeLine};

use dag_net::{Answer, IdLists, Mode, Net, Ranges};
use flow_models::Problem;
use greedy_paths::{GreedyFault, decompose};
use report_terms::Solved;
use safe_paths::maximal_safe;
use std::alloc::{AllocError, Global};

/// The lower bound of each range.
fn lower_bounds(alloc: Global, ranges: &Ranges) -> Result<Vec<u64>, AllocError>
    ensures { IfOk result (λ bounds. bounds.items ≡ map (λ range. range.lo) ranges.now) }
{
    ranges
        .as_slice()
        .iter()
        .map(|range| range.lo)
        .collect(alloc)
}

/// Weighted paths that make up a balanced flow.
fn decomposed(alloc: Global, net: &Net, flow: &[u64]) -> Result<Answer, AllocError>
    requires one_each { length flow.now ≡ edge_count net.now }
    requires small { All (λ w. w ≤ 1000000000000) flow.now }
    requires balanced { IsBalanced net.now (slice_index flow.now) }
    ensures { IfOk result (Decomposes net.now (slice_index flow.now)) }
{
    match decompose(alloc, net, flow) {
        Ok(answer) => Ok(answer),
        Err(GreedyFault::Memory) => Err(AllocError),
        Err(_) => unreachable!(),
    }
}

/// The maximal safe runs of an exact problem, rising by edge list.
fn maximal_runs(alloc: Global, net: &Net, p: &Problem) -> Result<IdLists, AllocError>
    requires valid { IsInstance Exact (instance net.now p.now) }
    ensures { IfOk result (AreMaximal (IsSafe (instance net.now p.now))) }
{
    let flow = lower_bounds(alloc, &p.ranges)?;
    let answer = decomposed(alloc, net, &flow)?;
    maximal_safe(alloc, net, &flow, &answer)
}

/// Whether two lists have the same runs in the same order.
fn are_same(runs: &IdLists, others: &IdLists) -> bool
    ensures { IsTrue result ↔ (runs.now ≡ others.now) }
{
    if runs.len() != others.len() {
        return false;
    }
    for i in 0..runs.len() {
        if runs.get(i).as_slice() != others.get(i).as_slice() {
            return false;
        }
    }
    true
}

/// Whether the runs, if they are there, are the maximal safe runs of an exact problem.
pub fn safe_fits(
    alloc: Global,
    net: &Net,
    p: &Problem,
    mode: &Mode,
    solved: &Solved,
) -> Result<bool, AllocError>
    requires valid { IsInstance mode.now (instance net.now p.now) }
    ensures { IfOk result (λ fits. IsTrue fits ↔ Holds mode.now (instance net.now p.now) solved.now SafeLine) }
{
    let Some(runs) = &solved.safe else {
        return Ok(true);
    };
    let Mode::Exact = *mode else {
        return Ok(false);
    };
    let maximal = maximal_runs(alloc, net, p)?;
    Ok(are_same(runs, &maximal))
}
