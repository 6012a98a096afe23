//! Decompositions that put the least weight on a run.

ghost use Rattle.std.specs.Prelude.{◌≡◌, ◌≤◌, length, slice_index, All, IfOk};
ghost use Rattle.std.specs.List.{IsDistinct};
ghost use Rattle.decomposition.specs.Graph.{edge_count, IsRun};
ghost use Rattle.decomposition.specs.Answer.{IsInReportOrder, same_path};
ghost use Rattle.decomposition.specs.Flow.{Decomposes, IsBalanced};
ghost use Rattle.decomposition.specs.SafeRuns.{excess};
ghost use Rattle.run_weight.specs.Loads.{load, at_least_0, IsLightest};

use crate::exits::places_along;
use crate::sorting::Sorting;
use dag_net::{Answer, Net};
use greedy_paths::{GreedyFault, decompose};
use std::alloc::{AllocError, Global};

/// A decomposition that puts the least weight on the run, from any decomposition of the flow.
pub fn lighten(
    alloc: Global,
    net: &Net,
    flow: &[u64],
    answer: &Answer,
    run: &[u32],
) -> Result<Answer, AllocError>
    requires one_each { length flow.now ≡ edge_count net.now }
    requires small { All (λ w. w ≤ 1000000000000) flow.now }
    requires answer { Decomposes net.now (slice_index flow.now) answer.now }
    requires run { IsRun net.now run.now }
    ensures lightest { IfOk result (IsLightest net.now (slice_index flow.now) run.now) }
    ensures order { IfOk result IsInReportOrder }
    ensures once { IfOk result (IsDistinct same_path) }
{
    prove!(net.edges() <= 4096);
    let places = places_along(alloc, net, run)?;
    let mut sorting = Sorting::of(alloc, net, answer, run)?;
    sorting.settle(alloc, net, run, &places)?;
    let lightened = sorting.answer(alloc)?;
    let tidied = lightened.tidy(alloc)?;
    Ok(tidied)
}

/// A decomposition of the flow that puts the least weight on the run.
pub fn lightest(alloc: Global, net: &Net, flow: &[u64], run: &[u32]) -> Result<Answer, AllocError>
    requires one_each { length flow.now ≡ edge_count net.now }
    requires small { All (λ w. w ≤ 1000000000000) flow.now }
    requires balanced { IsBalanced net.now (slice_index flow.now) }
    requires run { IsRun net.now run.now }
    ensures lightest { IfOk result (IsLightest net.now (slice_index flow.now) run.now) }
    ensures load { IfOk result (λ a. load a run.now ≡ at_least_0 (excess net.now (slice_index flow.now) run.now)) }
    ensures order { IfOk result IsInReportOrder }
    ensures once { IfOk result (IsDistinct same_path) }
{
    prove!(net.edges() <= 4096);
    match decompose(alloc, net, flow) {
        Ok(answer) => {
            let light = lighten(alloc, net, flow, &answer, run)?;
            Ok(light)
        }
        Err(GreedyFault::Memory) => Err(AllocError),
        Err(_) => unreachable!(),
    }
}
