//! What a search gives that is trusted for nothing: it counts only after it was checked.
ghost use Rattle.std.specs.Prelude.{◌≡◌, ◌≤◌, ◌↔◌, nat_le, length, IfNone, IfOk, IfSome, IsTrue};
ghost use Rattle.std.specs.List.{list_all};
ghost use Rattle.decomposition.specs.declared.Mode.{Mode as AMode};
ghost use Rattle.decomposition.specs.Certificates.{IsWithin};
ghost use Rattle.decomposition.specs.Graph.{edge_count};
ghost use Rattle.decomposition.specs.Held.{Settles};
ghost use Rattle.decomposition.specs.Instance.{IsInstance, greatest_hi};
ghost use Rattle.flow_models.specs.Problem.{instance};
ghost use Rattle.flow_solver.specs.Asked.{MaySearch};
ghost use Rattle.flow_solver.specs.Searched.{IsFoundFor, IsRefutedAlone};

use crate::searching::trail_of;
use cert_check::{TreeVerdict, are_paths, check_tree};
use closer_bounds::Tree;
use dag_net::{Answer, Net};
use decomposition::Decision;
use flow_models::{Problem, error_of};
use report_terms::Trail;
use std::alloc::{AllocError, Global};

/// Whether no path is heavier than the cap.
fn are_light(answer: &Answer, cap: u64) -> bool
    ensures { IsTrue result ↔ IsTrue (list_all (λ entry. nat_le entry.1 cap) answer.now) }
{
    for i in 0..answer.len() {
        if answer.weight(i) > cap {
            return false;
        }
    }
    true
}

/// Whether an answer settles a decision: paths of the net, few enough and none heavier than the cap, that cover with an error within the limit.
fn settles(net: &Net, problem: &Problem, decision: Decision, answer: &Answer) -> bool
    requires ranged { length problem.now.ranges ≡ edge_count net.now }
    requires cap { problem.now.cap ≡ greatest_hi problem.now.ranges }
    ensures { IsTrue result ↔ Settles (instance net.now problem.now) decision answer.now }
{
    answer.len() <= decision.slots as usize
        && are_paths(net, answer)
        && are_light(answer, problem.cap)
        && problem.rules.covered(answer)
        && is_within(decision.limit, error_of(net, problem, answer))
}

/// Whether an error is within a limit, where there is one.
fn is_within(limit: Option<u64>, error: u128) -> bool
    ensures { IsTrue result ↔ IsWithin limit error }
{
    match limit {
        Some(limit) => error <= u128::from(limit),
        None => true,
    }
}

/// What was found, in report order and no path twice, where it settles the decision; nothing is dropped that does.
pub fn checked_answer(
    alloc: Global,
    net: &Net,
    problem: &Problem,
    decision: Decision,
    found: Option<Answer>,
) -> Result<Option<Answer>, AllocError>
    requires valid { (mode : AMode) × IsInstance mode (instance net.now problem.now) }
    requires cap { problem.now.cap ≡ greatest_hi problem.now.ranges }
    requires few { decision.slots ≤ 8192 }
    ensures right { IfOk result (λ kept. IfSome kept (IsFoundFor (instance net.now problem.now) decision)) }
    ensures dropped { IfOk result (λ kept. IfNone kept (IfSome found (λ answer. Settles (instance net.now problem.now) decision answer → ⊥))) }
{
    let Some(answer) = found else {
        return Ok(None);
    };
    if !settles(net, problem, decision, &answer) {
        return Ok(None);
    }
    Ok(Some(answer.tidy(alloc)?))
}

/// The tokens that were found, where they refute their decision, and are no more than are allowed.
pub fn checked_tree(
    alloc: Global,
    net: &Net,
    problem: &Problem,
    nodes: u32,
    found: Option<Tree>,
) -> Result<Option<Trail>, AllocError>
    requires valid { (mode : AMode) × IsInstance mode (instance net.now problem.now) }
    requires searched { MaySearch nodes problem.now }
    ensures { IfOk result (λ kept. IfSome kept (IsRefutedAlone nodes (instance net.now problem.now))) }
{
    let Some(Tree { decision, tokens }) = found else {
        return Ok(None);
    };
    if tokens.len() > nodes as usize {
        return Ok(None);
    }
    match check_tree(alloc, net, problem, &decision, tokens.as_slice())? {
        TreeVerdict::Refutes => Ok(Some(trail_of(alloc, decision, tokens.as_slice())?)),
        TreeVerdict::Pending(_) | TreeVerdict::Illegal(_) => Ok(None),
    }
}
