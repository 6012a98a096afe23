//! Closer bounds on the number of paths, by a search that is trusted for nothing.
ghost use Rattle.std.specs.Prelude.{◌≡◌, ◌↔◌, ◌≤◌, ◌<◌, Some, length, IfOk, IfSome, IsTrue};
ghost use Rattle.decomposition.specs.declared.Mode.TheVariants.{Interval};
ghost use Rattle.decomposition.specs.Instance.{IsInstance, greatest_hi};
ghost use Rattle.flow_models.specs.Problem.{instance};
ghost use Rattle.flow_solver.specs.Asked.{MaySearch};
ghost use Rattle.flow_solver.specs.Searched.{IsFoundFor, IsRaised};

use crate::checked::{checked_answer, checked_tree};
use closer_bounds::{Counted, Tree, closer_fewest};
use dag_net::{Answer, Net};
use decomposition::Decision;
use flow_models::Problem;
use report_terms::Trail;
use std::alloc::{AllocError, Global};

/// An answer of few enough paths, and a refutation of at least as many as the width, where they were found and are right.
#[derive(Debug, Drop)]
pub struct Closer {
    pub paths: Option<Answer>,
    pub raised: Option<Trail>,
}

/// Looks for an answer of at most so many paths, and for a refutation of as many paths as the width or more.
pub fn look_closer(
    alloc: Global,
    net: &Net,
    problem: &Problem,
    counted: Counted,
    most: u32,
) -> Result<Closer, AllocError>
    requires valid { IsInstance Interval (instance net.now problem.now) }
    requires few { most ≤ 8192 }
    requires searched { MaySearch counted.nodes problem.now }
    ensures paths { IfOk result (λ c. IfSome c.paths (IsFoundFor (instance net.now problem.now) (record { slots = most; limit = Some 0 }))) }
    ensures raised { IfOk result (λ c. IfSome c.raised (λ tree. IsRaised counted.entry.nodes (instance net.now problem.now) (length counted.entry.antichain.now) tree × (tree.decision.slots ≤ most))) }
{
    let found = closer_fewest(alloc, net, problem, counted)?;
    let decision = Decision {
        slots: most,
        limit: Some(0),
    };
    let paths = checked_answer(alloc, net, problem, decision, found.answer)?;
    let width = counted.antichain.len();
    let raised = raised_by(alloc, net, problem, counted.nodes, width, most, found.tree)?;
    Ok(Closer { paths, raised })
}

/// A refutation of as many paths as the width or more, and at most so many, where one was found.
fn raised_by(
    alloc: Global,
    net: &Net,
    problem: &Problem,
    nodes: u32,
    width: usize,
    most: u32,
    found: Option<Tree>,
) -> Result<Option<Trail>, AllocError>
    requires valid { IsInstance Interval (instance net.now problem.now) }
    requires searched { MaySearch nodes problem.now }
    ensures { IfOk result (λ raised. IfSome raised (λ tree. IsRaised nodes (instance net.now problem.now) width tree × (tree.decision.slots ≤ most))) }
{
    let Some(tree) = checked_tree(alloc, net, problem, nodes, found)? else {
        return Ok(None);
    };
    if is_raising(tree.decision, width, most) {
        Ok(Some(tree))
    } else {
        Ok(None)
    }
}

/// Whether a decision asks for no error, and for as many paths as the width or more, and at most so many.
fn is_raising(decision: Decision, width: usize, most: u32) -> bool
    ensures { IsTrue result ↔ (decision.limit ≡ Some 0) × (width ≤ decision.slots) × (decision.slots ≤ most) }
{
    decision.limit == Some(0) && width <= decision.slots as usize && decision.slots <= most
}
