//! Decomposes a flow: takes the widest path again and again, until no flow is left, over booked paths if there are some.

ghost use Rattle.std.specs.Prelude.{◌≡◌, ◌≢◌, ℕ, ◌+◌, ◌<◌, ◌≤◌, ◌^◌, ◌==◌, List, length, slice_index, All, AllPairs, IfOk, IfErr, IsTrue};
ghost use Rattle.std.specs.List.{list_all};
ghost use Rattle.decomposition.specs.Graph.{edge_count, is_run, IsNet};
ghost use Rattle.decomposition.specs.Answer.{IsAnswer, Covers, IsInReportOrder};
ghost use Rattle.decomposition.specs.Flow.{Decomposes, rest_after};
ghost use Rattle.decomposition.specs.FirstAnswer.{IsWidestFirst, IsFirstAnswer};
ghost use Rattle.greedy_paths.specs.Greedy.{IsRefusal, positive_edges};
ghost use Rattle.greedy_paths.specs.Built.{EndsWidestFirst, IsBuiltOn, IsLeastFirst, IsRefusalOver, IsRefusalWith};

use crate::booking::book;
use crate::units::rest_of;
use crate::widest::widest_path;
use dag_net::{Answer, Net};
use std::alloc::{AllocError, Global};
use subpath_rules::Rules;
use thiserror::Error;

/// Why a flow has no first answer.
#[derive(Debug, Drop, Error)]
pub enum GreedyFault {
    #[error("the flow into vertex {vertex} is not the flow out of it")]
    Unbalanced { vertex: u32 },
    #[error("edge {edge} has {booked} booked units and a flow of {flow}")]
    Overbooked { edge: u32, booked: u64, flow: u64 },
    #[error("out of memory")]
    Memory,
}

impl From<AllocError> for GreedyFault {
    ghost use Rattle.std.specs.Prelude.{◌≡◌};
    ghost use Rattle.greedy_paths.specs.declared.greedy.GreedyFault.TheVariants.{Memory};

    ghost from_gives = { λ _ fault. fault ≡ Memory };

    fn from(_error: AllocError) -> Self {
        GreedyFault::Memory
    }
}

/// Takes the widest path again and again, until no flow is left.
pub fn decompose(alloc: Global, net: &Net, flow: &[u64]) -> Result<Answer, GreedyFault>
    requires one_each { length flow.now ≡ edge_count net.now }
    requires small { All (λ w. w ≤ 1000000000000) flow.now }
    ensures sums { IfOk result (Decomposes net.now (slice_index flow.now)) }
    ensures few { IfOk result (λ answer. length answer ≤ positive_edges flow.now) }
    ensures widest { IfOk result (IsWidestFirst net.now (slice_index flow.now)) }
    ensures refusal { IfErr result (IsRefusal net.now (slice_index flow.now)) }
{
    if let Some(vertex) = net.first_unbalanced(alloc, flow)? {
        return Err(GreedyFault::Unbalanced { vertex });
    }
    let rest = Vec::from_slice(alloc, flow)?;
    let answer = add_widest(alloc, net, rest, Answer::new(alloc))?;
    Ok(answer)
}

/// The booked paths, and the widest-first list of what they leave of the flow, with equal paths made one, in report order.
pub fn decompose_over(
    alloc: Global,
    net: &Net,
    flow: &[u64],
    booked: Answer,
) -> Result<Answer, GreedyFault>
    requires one_each { length flow.now ≡ edge_count net.now }
    requires small { All (λ w. w ≤ 1000000000000) flow.now }
    requires answer { IsAnswer net.now booked }
    requires units { IsTrue (list_all (λ entry. entry.1 == 1) booked) }
    requires few { length booked < 2 ^ 32 }
    ensures sums { IfOk result (Decomposes net.now (slice_index flow.now)) }
    ensures order { IfOk result IsInReportOrder }
    ensures few { IfOk result (λ a. length a ≤ edge_count net.now + length booked) }
    ensures keeps { IfOk result (λ a. (rules : List (List ℕ)) → Covers rules booked → Covers rules a) }
    ensures built { IfOk result (IsBuiltOn net.now (slice_index flow.now) booked) }
    ensures refusal { IfErr result (IsRefusalOver net.now (slice_index flow.now) booked) }
{
    prove!(net.edges() <= 4096);
    let rest = rest_of(alloc, net, flow, &booked)?;
    let paths = add_widest(alloc, net, rest, booked)?;
    let answer = paths.tidy(alloc)?;
    Ok(answer)
}

/// The booked paths of the rules, and the widest-first list of what they leave of the flow, with equal paths made one,
/// in report order.
pub fn decompose_with(
    alloc: Global,
    net: &Net,
    flow: &[u64],
    rules: &Rules,
) -> Result<Answer, GreedyFault>
    requires one_each { length flow.now ≡ edge_count net.now }
    requires small { All (λ w. w ≤ 1000000000000) flow.now }
    requires runs { IsTrue (list_all (is_run net.now) rules.now) }
    ensures sums { IfOk result (Decomposes net.now (slice_index flow.now)) }
    ensures covers { IfOk result (Covers rules.now) }
    ensures order { IfOk result IsInReportOrder }
    ensures few { IfOk result (λ a. length a ≤ edge_count net.now + length rules.now) }
    ensures first { IfOk result (IsFirstAnswer net.now (slice_index flow.now) rules.now) }
    ensures least { IfOk result (IsLeastFirst net.now (slice_index flow.now) rules.now) }
    ensures refusal { IfErr result (IsRefusalWith net.now (slice_index flow.now) rules.now) }
{
    let booked = book(alloc, net, flow, rules)?;
    prove!(booked.len() <= rules.len() as usize);
    decompose_over(alloc, net, flow, booked)
}

/// Adds the widest path of what the earlier ones leave, and its width, until no path is left.
fn add_widest(
    alloc: Global,
    net: &Net,
    mut rest: Vec<u64>,
    mut answer: Answer,
) -> Result<Answer, AllocError>
    requires { length rest.items ≡ edge_count net.now }
    ensures widest { IfOk result (EndsWidestFirst net.now (slice_index rest.items) answer) }
    ensures net { IfOk result (λ _. IsNet net.now) }
{
    while let Some((path, width)) = widest_path(alloc, net, &rest)? {
        take_off(&mut rest, path.as_slice(), width);
        answer.push(path, width)?;
    }
    Ok(answer)
}

/// Takes a weight off each edge of a path.
fn take_off(rest: &mut [u64], path: &[u32], weight: u64)
    requires inside { All (λ e. e < length rest.old) path.now }
    requires once { AllPairs (λ d e. d ≢ e) path.now }
    requires enough { All (λ e. weight ≤ slice_index rest.old e) path.now }
    ensures { (e : ℕ) → slice_index rest.new e ≡ rest_after (slice_index rest.old) path.now weight e }
{
    for &e in path {
        rest[e as usize] -= weight;
    }
}
