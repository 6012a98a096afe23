//! Searches for few paths, in the models that count them.
ghost use Rattle.std.specs.Prelude.{◌≡◌, ◌≤◌, ◌+◌, ◌-◌, ◌<◌, ℕ, length, Some, None, IfOk, IfSome, IsSomeAnd};
ghost use Rattle.decomposition.specs.declared.Mode.TheVariants.{Interval};
ghost use Rattle.decomposition.specs.Instance.{Instance, IsInstance, greatest_hi};
ghost use Rattle.flow_models.specs.Problem.{instance};
ghost use Rattle.flow_solver.specs.Asked.{MaySearch};
ghost use Rattle.flow_solver.specs.Searched.{AreFewPaths, FindsAs, IsKnown, IsRaised, StopsAt, count_of, floor_of};

use crate::crowds::{Crowd, find_crowd};
use crate::searching::{Attempt, search_once};
use dag_net::{Answer, Ids, Net};
use decomposition::Decision;
use flow_models::Problem;
use report_terms::Trail;
use std::alloc::{AllocError, Global};

/// Why no search for fewer paths is made.
#[derive(Debug, Drop)]
pub enum Ending {
    /// There are as many paths as the width.
    Width,
    /// One path fewer is refuted.
    Refuted(Trail),
    /// The search for one path fewer was spent. More paths than the width are refuted, or nothing is.
    Spent { trail: Trail, raised: Option<Trail> },
}

/// What is known when the searches have ended.
#[derive(Debug, Drop)]
pub enum Finding {
    /// Paths that meet the model, and why there are no fewer.
    Known { paths: Answer, ending: Ending },
    /// More rules through an edge than it can carry paths, no two of them on one path.
    Crowded { edge: u32, rules: Ids },
    /// As many paths as can be needed are refuted.
    Never(Trail),
    /// The search for as many paths as can be needed was spent. At least as many paths as the width are refuted, or nothing is.
    Open { trail: Trail, raised: Option<Trail> },
}

/// Searches for few paths by rule lists, from a first answer if there is one.
pub fn count_by_lists(
    alloc: Global,
    net: &Net,
    problem: &Problem,
    nodes: u32,
    width: usize,
    first: Option<Answer>,
) -> Result<Finding, AllocError>
    requires valid { IsInstance Interval (instance net.now problem.now) }
    requires searched { MaySearch nodes problem.now }
    requires known { IfSome first (IsKnown Interval (instance net.now problem.now)) }
    requires few { IfSome first (AreFewPaths (instance net.now problem.now)) }
    ensures finds { IfOk result (FindsAs nodes (instance net.now problem.now) width) }
    ensures fewer { IfOk result (λ found. IfSome first (λ a. IsSomeAnd (count_of found) (λ count. count ≤ length a))) }
{
    match first {
        Some(paths) => find_fewer(alloc, net, problem, nodes, width, None, paths),
        None => find_any(alloc, net, problem, nodes, width),
    }
}

/// Looks for a crowd; then searches for any answer, and from there for fewer paths.
fn find_any(
    alloc: Global,
    net: &Net,
    problem: &Problem,
    nodes: u32,
    width: usize,
) -> Result<Finding, AllocError>
    requires valid { IsInstance Interval (instance net.now problem.now) }
    requires searched { MaySearch nodes problem.now }
    ensures { IfOk result (FindsAs nodes (instance net.now problem.now) width) }
{
    if let Some(Crowd { edge, rules }) = find_crowd(alloc, net, problem)? {
        return Ok(Finding::Crowded { edge, rules });
    }
    prove!(net.edges() <= 4096);
    let decision = Decision {
        slots: net.edges() + problem.rules.len(),
        limit: Some(0),
    };
    match search_once(alloc, net, problem, nodes, decision)? {
        Attempt::Found(paths) => find_fewer(alloc, net, problem, nodes, width, None, paths),
        Attempt::Refuted(tree) => Ok(Finding::Never(tree)),
        Attempt::Spent(trail) => Ok(Finding::Open {
            trail,
            raised: None,
        }),
    }
}

/// The number of paths that there must be: the width, or one more than are refuted.
fn floor_of(width: usize, raised: &Option<Trail>) -> usize
    ensures { result ≡ floor_of width raised.now }
{
    match raised {
        Some(tree) => tree.decision.slots as usize + 1,
        None => width,
    }
}

/// Paths, and why there is no search for fewer.
#[derive(Debug, Drop)]
struct Fewest {
    paths: Answer,
    ending: Ending,
}

/// Searches for fewer and fewer paths, until there are as many as there must be, or a search finds none or is spent.
fn search_down(
    alloc: Global,
    net: &Net,
    problem: &Problem,
    nodes: u32,
    floor: usize,
    first: Answer,
) -> Result<Fewest, AllocError>
    requires valid { IsInstance Interval (instance net.now problem.now) }
    requires searched { MaySearch nodes problem.now }
    requires known { IsKnown Interval (instance net.now problem.now) first }
    requires few { AreFewPaths (instance net.now problem.now) first }
    ensures known { IfOk result (λ fewest. IsKnown Interval (instance net.now problem.now) fewest.paths × AreFewPaths (instance net.now problem.now) fewest.paths) }
    ensures stops { IfOk result (λ fewest. StopsAt nodes (instance net.now problem.now) floor (length fewest.paths) fewest.ending) }
    ensures fewer { IfOk result (λ fewest. length fewest.paths ≤ length first) }
{
    prove!(net.edges() <= 4096);
    let mut paths = first;
    while paths.len() > floor {
        let decision = Decision {
            slots: paths.len() as u32 - 1,
            limit: Some(0),
        };
        match search_once(alloc, net, problem, nodes, decision)? {
            Attempt::Found(fewer) => paths = fewer,
            Attempt::Refuted(tree) => {
                let ending = Ending::Refuted(tree);
                return Ok(Fewest { paths, ending });
            }
            Attempt::Spent(trail) => {
                let ending = Ending::Spent {
                    trail,
                    raised: None,
                };
                return Ok(Fewest { paths, ending });
            }
        }
    }
    let ending = Ending::Width;
    Ok(Fewest { paths, ending })
}

/// The ending where a refutation, if there is one, shows how many paths there must be.
fn ending_over(ending: Ending, raised: Option<Trail>) -> Ending
    ensures { (nodes : ℕ) (i : Instance) (width count : ℕ) → IfSome raised (λ tree. IsRaised nodes i width tree × (tree.decision.slots < count))
        → StopsAt nodes i (floor_of width raised) count ending → StopsAt nodes i width count result }
{
    let Some(tree) = raised else {
        return ending;
    };
    match ending {
        Ending::Width => Ending::Refuted(tree),
        Ending::Refuted(one_fewer) => Ending::Refuted(one_fewer),
        Ending::Spent { trail, raised: _ } => Ending::Spent {
            trail,
            raised: Some(tree),
        },
    }
}

/// Searches for fewer paths, down to the width or to one more than are refuted.
pub fn find_fewer(
    alloc: Global,
    net: &Net,
    problem: &Problem,
    nodes: u32,
    width: usize,
    raised: Option<Trail>,
    first: Answer,
) -> Result<Finding, AllocError>
    requires valid { IsInstance Interval (instance net.now problem.now) }
    requires searched { MaySearch nodes problem.now }
    requires raised { IfSome raised (IsRaised nodes (instance net.now problem.now) width) }
    requires known { IsKnown Interval (instance net.now problem.now) first }
    requires few { AreFewPaths (instance net.now problem.now) first }
    ensures finds { IfOk result (FindsAs nodes (instance net.now problem.now) width) }
    ensures fewer { IfOk result (λ found. IsSomeAnd (count_of found) (λ count. count ≤ length first)) }
{
    let floor = floor_of(width, &raised);
    let Fewest { paths, ending } = search_down(alloc, net, problem, nodes, floor, first)?;
    let ending = ending_over(ending, raised);
    Ok(Finding::Known { paths, ending })
}
