//! What a graph with ranges is answered.
ghost use Rattle.std.specs.Prelude.{◌≡◌, ◌≤◌, ◌<◌, ◌==◌, ◌+◌, ◌⊎◌, ℕ, List, length, slice_index, All, IfOk, IsTrue};
ghost use Rattle.std.specs.List.{list_all};
ghost use Rattle.decomposition.specs.declared.Mode.TheVariants.{Interval};
ghost use Rattle.decomposition.specs.Answer.{IsAnswer, Covers, IsInReportOrder, weight_on};
ghost use Rattle.decomposition.specs.Flow.{Decomposes, IsBalanced};
ghost use Rattle.decomposition.specs.Graph.{edge_count};
ghost use Rattle.decomposition.specs.Instance.{IsInstance, greatest_hi};
ghost use Rattle.flow_models.specs.Problem.{instance};
ghost use Rattle.greedy_paths.specs.Built.{IsBuiltOn};
ghost use Rattle.report_terms.specs.NetFacts.{IsFoundIn};
ghost use Rattle.flow_solver.specs.Right.{SolvedRight};
ghost use Rattle.flow_solver.specs.Asked.{MayBeAsked, most_rules};
ghost use Rattle.flow_solver.specs.Firsts.{IsWithin};

use crate::asked::Asked;
use crate::bounds::{upper_bounds, widest_antichain};
use crate::counted::{solved_by, without_answer};
use crate::narrowing::find_fewest;
use crate::room::flow_with_room;
use crate::thin::thin_flow;
use dag_net::{Answer, Ids, Net};
use decomposition::Side;
use flow_models::Problem;
use greedy_paths::{GreedyFault, book, decompose_over};
use lower_flow::{FlowOrCut, bounded_flow};
use report_terms::{Cert, Solved};
use std::alloc::{AllocError, Global};

/// What lies within the ranges.
#[derive(Debug, Drop)]
pub enum Within {
    /// Nothing: these vertices must receive more than they can send on, or the other way round.
    Cut(Side, Ids),
    /// Weighted paths, and a first answer where the booked paths fit.
    First(Option<Answer>),
}

/// A cut where there is no flow within the ranges; else a flow that has room for the booked paths, as paths, and then
/// searches for fewer.
pub fn solve_interval(
    alloc: Global,
    net: &Net,
    problem: &Problem,
    asked: Asked,
) -> Result<Solved, AllocError>
    requires ready { MayBeAsked asked }
    requires interval { asked.mode ≡ Interval }
    requires valid { IsInstance Interval (instance net.now problem.now) }
    requires cap { problem.now.cap ≡ greatest_hi problem.now.ranges }
    requires few_rules { length problem.now.rules ≤ most_rules }
    ensures found { IfOk result (IsFoundIn net.now) }
    ensures right { IfOk result (SolvedRight asked (instance net.now problem.now)) }
{
    match first_within(alloc, net, problem)? {
        Within::Cut(side, vertices) => Ok(without_answer(alloc, Cert::Cut(side, vertices), None)),
        Within::First(first) => {
            let antichain = widest_antichain(alloc, net, &problem.ranges)?;
            let finding = find_fewest(alloc, net, problem, asked.nodes, &antichain, first)?;
            Ok(solved_by(alloc, finding, antichain, None))
        }
    }
}

/// A cut of the ranges, or where the booked paths fit the shorter one of the first answers of two flows.
fn first_within(alloc: Global, net: &Net, problem: &Problem) -> Result<Within, AllocError>
    requires valid { IsInstance Interval (instance net.now problem.now) }
    requires few_rules { length problem.now.rules ≤ most_rules }
    ensures { IfOk result (IsWithin (instance net.now problem.now)) }
{
    let flow = match bounded_flow(alloc, net, problem.ranges.as_slice())? {
        FlowOrCut::Flow(flow) => flow,
        FlowOrCut::InCut(vertices) => return Ok(Within::Cut(Side::Entering, vertices)),
        FlowOrCut::OutCut(vertices) => return Ok(Within::Cut(Side::Leaving, vertices)),
    };
    let guide = upper_bounds(alloc, &problem.ranges)?;
    let booked = book(alloc, net, &guide, &problem.rules)?;
    match flow_with_room(alloc, net, &problem.ranges, flow, &booked)? {
        Some(flow) => {
            let other = answer_over(alloc, net, flow.as_slice(), copy_of(alloc, &booked)?)?;
            let thin = thin_flow(alloc, net, &problem.ranges, flow, &booked)?;
            let first = answer_over(alloc, net, thin.as_slice(), booked)?;
            Ok(Within::First(Some(shorter(other, first))))
        }
        None => Ok(Within::First(None)),
    }
}

/// The booked paths, and the widest of the rest of a flow that has room for them.
fn answer_over(alloc: Global, net: &Net, flow: &[u64], booked: Answer) -> Result<Answer, AllocError>
    requires one_each { length flow.now ≡ edge_count net.now }
    requires small { All (λ w. w ≤ 1000000000000) flow.now }
    requires balanced { IsBalanced net.now (slice_index flow.now) }
    requires answer { IsAnswer net.now booked }
    requires units { IsTrue (list_all (λ entry. entry.1 == 1) booked) }
    requires few { length booked ≤ most_rules }
    requires room { (e : ℕ) → e < edge_count net.now → weight_on booked e ≤ slice_index flow.now e }
    ensures sums { IfOk result (Decomposes net.now (slice_index flow.now)) }
    ensures order { IfOk result IsInReportOrder }
    ensures few { IfOk result (λ a. length a ≤ edge_count net.now + length booked) }
    ensures keeps { IfOk result (λ a. (rules : List (List ℕ)) → Covers rules booked → Covers rules a) }
    ensures built { IfOk result (IsBuiltOn net.now (slice_index flow.now) booked) }
{
    match decompose_over(alloc, net, flow, booked) {
        Ok(answer) => Ok(answer),
        Err(GreedyFault::Memory) => Err(AllocError),
        Err(_) => unreachable!(),
    }
}

/// The same weighted paths.
fn copy_of(alloc: Global, answer: &Answer) -> Result<Answer, AllocError>
    ensures { IfOk result (λ copy. copy ≡ answer.now) }
{
    let mut copy = Answer::new(alloc);
    for i in 0..answer.len() {
        copy.push(path_of(alloc, answer.path(i))?, answer.weight(i))?;
    }
    Ok(copy)
}

/// The same edges.
fn path_of(alloc: Global, path: &Ids) -> Result<Ids, AllocError>
    ensures { IfOk result (λ copy. copy ≡ path.now) }
{
    let mut copy = Ids::new(alloc);
    for &e in path.as_slice() {
        copy.push(e)?;
    }
    Ok(copy)
}

/// The answer with fewer paths, the first where both have as many.
fn shorter(a: Answer, b: Answer) -> Answer
    ensures either { (result ≡ a) ⊎ (result ≡ b) }
    ensures first { length result ≤ length a }
    ensures second { length result ≤ length b }
{
    if b.len() < a.len() { b } else { a }
}
