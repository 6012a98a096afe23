//! What an exact graph is answered.
ghost use Rattle.std.specs.Prelude.{◌≡◌, ◌≤◌, ◌<◌, ◌^◌, length, slice_index, All, is_some, IfOk, IfSome, IsTrue};
ghost use Rattle.std.specs.List.{list_all};
ghost use Rattle.decomposition.specs.declared.Mode.TheVariants.{Exact};
ghost use Rattle.decomposition.specs.Flow.{IsBalanced};
ghost use Rattle.decomposition.specs.Graph.{edge_count, is_run};
ghost use Rattle.decomposition.specs.Instance.{IsInstance, greatest_hi};
ghost use Rattle.decomposition.specs.SafeRuns.{IsSafeFor, AreMaximal};
ghost use Rattle.flow_models.specs.Problem.{instance};
ghost use Rattle.report_terms.specs.NetFacts.{IsFoundIn};
ghost use Rattle.flow_solver.specs.Right.{SolvedRight};
ghost use Rattle.flow_solver.specs.Asked.{MayBeAsked, most_rules};
ghost use Rattle.flow_solver.specs.Firsts.{IsFirstOfFlow};

use crate::asked::Asked;
use crate::bounds::{lower_bounds, widest_antichain};
use crate::counted::solved_by;
use crate::narrowing::find_fewest;
use dag_net::{Answer, IdLists, Net};
use flow_models::Problem;
use greedy_paths::{GreedyFault, decompose, decompose_with};
use report_terms::Solved;
use safe_paths::maximal_safe;
use std::alloc::{AllocError, Global};
use subpath_rules::Rules;

/// The booked paths and the widest of the rest first, then searches for fewer, until there are as many as the width, or
/// one path fewer is refuted, or a search is spent.
pub fn solve_exact(
    alloc: Global,
    net: &Net,
    problem: &Problem,
    asked: Asked,
) -> Result<Solved, AllocError>
    requires ready { MayBeAsked asked }
    requires exact { asked.mode ≡ Exact }
    requires valid { IsInstance Exact (instance net.now problem.now) }
    requires cap { problem.now.cap ≡ greatest_hi problem.now.ranges }
    requires few_rules { length problem.now.rules ≤ most_rules }
    ensures found { IfOk result (IsFoundIn net.now) }
    ensures right { IfOk result (SolvedRight asked (instance net.now problem.now)) }
{
    let flow = lower_bounds(alloc, &problem.ranges)?;
    let safe = safe_runs(alloc, net, asked.safe, &flow)?;
    let first = first_answer(alloc, net, &flow, &problem.rules)?;
    let antichain = widest_antichain(alloc, net, &problem.ranges)?;
    let finding = find_fewest(alloc, net, problem, asked.nodes, &antichain, first)?;
    Ok(solved_by(alloc, finding, antichain, safe))
}

/// The first answer of a balanced flow, if the booked paths fit.
fn first_answer(
    alloc: Global,
    net: &Net,
    flow: &[u64],
    rules: &Rules,
) -> Result<Option<Answer>, AllocError>
    requires one_each { length flow.now ≡ edge_count net.now }
    requires small { All (λ w. w ≤ 1000000000000) flow.now }
    requires balanced { IsBalanced net.now (slice_index flow.now) }
    requires runs { IsTrue (list_all (is_run net.now) rules.now) }
    ensures { IfOk result (IsFirstOfFlow net.now (slice_index flow.now) rules.now) }
{
    match decompose_with(alloc, net, flow, rules) {
        Ok(answer) => Ok(Some(answer)),
        Err(GreedyFault::Memory) => Err(AllocError),
        Err(GreedyFault::Overbooked { .. }) => Ok(None),
        Err(GreedyFault::Unbalanced { .. }) => unreachable!(),
    }
}

/// The maximal safe runs of a balanced flow, where they are asked for.
fn safe_runs(
    alloc: Global,
    net: &Net,
    asked: bool,
    flow: &[u64],
) -> Result<Option<IdLists>, AllocError>
    requires one_each { length flow.now ≡ edge_count net.now }
    requires small { All (λ w. w ≤ 1000000000000) flow.now }
    requires balanced { IsBalanced net.now (slice_index flow.now) }
    ensures asked { IfOk result (λ runs. is_some runs ≡ asked) }
    ensures maximal { IfOk result (λ runs. IfSome runs (AreMaximal (IsSafeFor net.now (slice_index flow.now)))) }
    ensures few { IfOk result (λ runs. IfSome runs (λ listed. length listed < 2 ^ 64)) }
{
    if !asked {
        return Ok(None);
    }
    let paths = match decompose(alloc, net, flow) {
        Ok(paths) => paths,
        Err(GreedyFault::Memory) => return Err(AllocError),
        Err(_) => unreachable!(),
    };
    let runs = maximal_safe(alloc, net, flow, &paths)?;
    prove!(runs.len() <= usize::MAX);
    Ok(Some(runs))
}
