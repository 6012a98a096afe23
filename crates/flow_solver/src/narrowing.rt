//! The fewest paths: searches by rule lists, and where one is spent a search for closer bounds.
ghost use Rattle.std.specs.Prelude.{◌≡◌, ◌≤◌, ◌+◌, ◌-◌, ◌<◌, ℕ, length, Some, None, IfOk, IfSome, IsSomeAnd};
ghost use Rattle.decomposition.specs.declared.Mode.TheVariants.{Interval};
ghost use Rattle.decomposition.specs.Certificates.{decision_at_all};
ghost use Rattle.decomposition.specs.Graph.{edge_count};
ghost use Rattle.decomposition.specs.Instance.{Instance, IsInstance, greatest_hi};
ghost use Rattle.flow_models.specs.Problem.{instance};
ghost use Rattle.flow_solver.specs.Crowds.{EachCarriesTaken};
ghost use Rattle.flow_solver.specs.Asked.{MaySearch};
ghost use Rattle.flow_solver.specs.Searched.{AreFewPaths, FindsAs, IsKnown, IsRaised, IsSpentBy, StopsAt, count_of};
ghost use Rattle.flow_solver.specs.declared.counting.Ending.TheVariants.{Spent as AtBudget};

use crate::closer::{Closer, look_closer};
use crate::counting::{Ending, Finding, count_by_lists, find_fewer};
use closer_bounds::Counted;
use dag_net::{Answer, Ids, Net};
use flow_models::Problem;
use report_terms::Trail;
use std::alloc::{AllocError, Global};

/// Searches for few paths, from a first answer if there is one; where that is spent, once for closer bounds, and from there again.
pub fn find_fewest(
    alloc: Global,
    net: &Net,
    problem: &Problem,
    nodes: u32,
    antichain: &Ids,
    first: Option<Answer>,
) -> Result<Finding, AllocError>
    requires valid { IsInstance Interval (instance net.now problem.now) }
    requires searched { MaySearch nodes problem.now }
    requires known { IfSome first (IsKnown Interval (instance net.now problem.now)) }
    requires few { IfSome first (AreFewPaths (instance net.now problem.now)) }
    ensures finds { IfOk result (FindsAs nodes (instance net.now problem.now) (length antichain.now)) }
    ensures fewer { IfOk result (λ found. IfSome first (λ a. IsSomeAnd (count_of found) (λ count. count ≤ length a))) }
{
    let found = count_by_lists(alloc, net, problem, nodes, antichain.len(), first)?;
    match found {
        Finding::Known { paths, ending } => match ending {
            Ending::Spent { trail, raised: _ } => {
                narrow(alloc, net, problem, nodes, antichain, paths, trail)
            }
            ending => Ok(Finding::Known { paths, ending }),
        },
        Finding::Open { trail, raised: _ } => {
            narrow_open(alloc, net, problem, nodes, antichain, trail)
        }
        decided => Ok(decided),
    }
}

/// Looks for fewer paths than these, and for a greater lower bound, and goes on from what is found.
fn narrow(
    alloc: Global,
    net: &Net,
    problem: &Problem,
    nodes: u32,
    antichain: &Ids,
    paths: Answer,
    trail: Trail,
) -> Result<Finding, AllocError>
    requires valid { IsInstance Interval (instance net.now problem.now) }
    requires searched { MaySearch nodes problem.now }
    requires known { IsKnown Interval (instance net.now problem.now) paths }
    requires few { AreFewPaths (instance net.now problem.now) paths }
    requires spent { StopsAt nodes (instance net.now problem.now) (length antichain.now) (length paths) (AtBudget trail None) }
    ensures finds { IfOk result (FindsAs nodes (instance net.now problem.now) (length antichain.now)) }
    ensures fewer { IfOk result (λ found. IsSomeAnd (count_of found) (λ count. count ≤ length paths)) }
{
    prove!(net.edges() <= 4096);
    let count = paths.len() as u32;
    let counted = Counted {
        antichain: antichain.as_slice(),
        paths: Some(count),
        nodes,
    };
    let found = look_closer(alloc, net, problem, counted, count - 1)?;
    let Closer {
        paths: fewer,
        raised,
    } = found;
    match fewer {
        Some(fewer) => {
            let width = antichain.len();
            find_fewer(alloc, net, problem, nodes, width, raised, fewer)
        }
        None => {
            let ending = ending_at(count as usize, trail, raised);
            Ok(Finding::Known { paths, ending })
        }
    }
}

/// Why there are no fewer paths than so many, for which the search was spent.
fn ending_at(count: usize, trail: Trail, raised: Option<Trail>) -> Ending
    ensures { (nodes : ℕ) (i : Instance) (width : ℕ) → StopsAt nodes i width count (AtBudget trail None) → IfSome raised (λ tree. IsRaised nodes i width tree × (tree.decision.slots < count))
        → StopsAt nodes i width count result }
{
    match raised {
        Some(tree) => {
            if tree.decision.slots as usize + 1 == count {
                Ending::Refuted(tree)
            } else {
                Ending::Spent {
                    trail,
                    raised: Some(tree),
                }
            }
        }
        None => Ending::Spent {
            trail,
            raised: None,
        },
    }
}

/// Looks for any answer, and for a greater lower bound, and goes on from what is found.
fn narrow_open(
    alloc: Global,
    net: &Net,
    problem: &Problem,
    nodes: u32,
    antichain: &Ids,
    trail: Trail,
) -> Result<Finding, AllocError>
    requires valid { IsInstance Interval (instance net.now problem.now) }
    requires searched { MaySearch nodes problem.now }
    requires spent { IsSpentBy nodes (instance net.now problem.now) (decision_at_all Interval (instance net.now problem.now)) trail }
    requires carries { EachCarriesTaken (instance net.now problem.now) }
    ensures { IfOk result (FindsAs nodes (instance net.now problem.now) (length antichain.now)) }
{
    prove!(net.edges() <= 4096);
    let most = net.edges() + problem.rules.len();
    let counted = Counted {
        antichain: antichain.as_slice(),
        paths: None,
        nodes,
    };
    let found = look_closer(alloc, net, problem, counted, most)?;
    let Closer { paths, raised } = found;
    match paths {
        Some(paths) => {
            let width = antichain.len();
            find_fewer(alloc, net, problem, nodes, width, raised, paths)
        }
        None => Ok(open_at(most, trail, raised)),
    }
}

/// What is known where no answer is, and the search for as many paths as can be needed was spent.
fn open_at(most: u32, trail: Trail, raised: Option<Trail>) -> Finding
    ensures { (nodes : ℕ) (i : Instance) (width : ℕ) → most ≡ edge_count i.graph + length i.rules → IsSpentBy nodes i (decision_at_all Interval i) trail → EachCarriesTaken i
        → IfSome raised (λ tree. IsRaised nodes i width tree × (tree.decision.slots ≤ most)) → FindsAs nodes i width result }
{
    match raised {
        Some(tree) => {
            if tree.decision.slots == most {
                Finding::Never(tree)
            } else {
                Finding::Open {
                    trail,
                    raised: Some(tree),
                }
            }
        }
        None => Finding::Open {
            trail,
            raised: None,
        },
    }
}
