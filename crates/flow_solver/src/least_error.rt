//! What a graph whose weights have errors is answered.
ghost use Rattle.std.specs.Prelude.{◌≡◌, ◌≤◌, ◌<◌, ℕ, false, length, None, IfOk, IfSome};
ghost use Rattle.decomposition.specs.declared.Mode.TheVariants.{Abs};
ghost use Rattle.decomposition.specs.Instance.{Instance, IsInstance, error, greatest_hi};
ghost use Rattle.flow_models.specs.Problem.{instance};
ghost use Rattle.report_terms.specs.NetFacts.{IsFoundIn};
ghost use Rattle.flow_solver.specs.declared.asked.Asked.{Asked as Given};
ghost use Rattle.flow_solver.specs.Asked.{MayBeAsked, MaySearch, most_rules};
ghost use Rattle.flow_solver.specs.Right.{SolvedRight};
ghost use Rattle.flow_solver.specs.Searched.{AttemptsAs, IsFoundFor, IsNoWorseThanBooked, IsRefutedAlone, IsSpentBy, any_error};
ghost use Rattle.flow_solver.specs.Halved.{HalvesTo, IsHalvedFor, IsHalving, steps_left};

use crate::asked::Asked;
use crate::bounds::lower_bounds;
use crate::checked::{checked_answer, checked_tree};
use crate::counted::without_answer;
use crate::searching::{Attempt, search_once};
use crate::widened::with_widest;
use closer_bounds::{Weighed, closer_nearest};
use dag_net::{Answer, Net};
use decomposition::Decision;
use flow_models::{Problem, error_of};
use greedy_paths::book;
use report_terms::{Cert, Mark, Solved, Trail};
use std::alloc::{AllocError, Global};

/// The booked paths and the widest of what they leave first, or any paths that cover, of which there may be k; then
/// searches for less error, each for half of what lies between the bounds, until they meet or a search is spent.
pub fn solve_least_error(
    alloc: Global,
    net: &Net,
    problem: &Problem,
    asked: Asked,
    k: u32,
) -> Result<Solved, AllocError>
    requires ready { MayBeAsked asked }
    requires least_error { asked.mode ≡ Abs k }
    requires valid { IsInstance (Abs k) (instance net.now problem.now) }
    requires cap { problem.now.cap ≡ greatest_hi problem.now.ranges }
    requires few_rules { length problem.now.rules ≤ most_rules }
    ensures found { IfOk result (IsFoundIn net.now) }
    ensures right { IfOk result (SolvedRight asked (instance net.now problem.now)) }
{
    match first_attempt(alloc, net, problem, asked.nodes, k)? {
        Attempt::Found(paths) => {
            let halved = find_least(alloc, net, problem, asked.nodes, k, paths)?;
            Ok(halved_by(halved))
        }
        Attempt::Refuted(tree) => Ok(without_answer(alloc, Cert::Tree(tree), None)),
        Attempt::Spent(trail) => Ok(Solved {
            mark: Mark::Bounds,
            lower: Some(0),
            upper: None,
            paths: Answer::new(alloc),
            cert: Cert::Zero,
            trail: Some(trail),
            safe: None,
        }),
    }
}

/// The booked paths and the widest of what they leave, if there may be as many as are booked; else what a search for at
/// most k paths with any error comes to.
fn first_attempt(
    alloc: Global,
    net: &Net,
    problem: &Problem,
    nodes: u32,
    k: u32,
) -> Result<Attempt, AllocError>
    requires valid { IsInstance (Abs k) (instance net.now problem.now) }
    requires searched { MaySearch nodes problem.now }
    requires few { k ≤ 64 }
    ensures attempts { IfOk result (AttemptsAs nodes (instance net.now problem.now) (any_error k)) }
    ensures booked { IfOk result (IsNoWorseThanBooked k (instance net.now problem.now)) }
{
    let weights = lower_bounds(alloc, &problem.ranges)?;
    let booked = book(alloc, net, &weights, &problem.rules)?;
    if booked.len() <= k as usize {
        let paths = with_widest(alloc, net, &weights, booked, k)?;
        return Ok(Attempt::Found(paths.tidy(alloc)?));
    }
    attempt_any(alloc, net, problem, nodes, k)
}

/// What a search for at most k paths with any error comes to, and where it is spent a search for closer bounds.
fn attempt_any(
    alloc: Global,
    net: &Net,
    problem: &Problem,
    nodes: u32,
    k: u32,
) -> Result<Attempt, AllocError>
    requires valid { IsInstance (Abs k) (instance net.now problem.now) }
    requires searched { MaySearch nodes problem.now }
    requires few { k ≤ 64 }
    ensures { IfOk result (AttemptsAs nodes (instance net.now problem.now) (any_error k)) }
{
    let decision = Decision {
        slots: k,
        limit: None,
    };
    match search_once(alloc, net, problem, nodes, decision)? {
        Attempt::Spent(trail) => attempt_closer(alloc, net, problem, nodes, k, trail),
        decided => Ok(decided),
    }
}

/// What a search for closer bounds comes to, where a search for at most k paths with any error was spent.
fn attempt_closer(
    alloc: Global,
    net: &Net,
    problem: &Problem,
    nodes: u32,
    k: u32,
    trail: Trail,
) -> Result<Attempt, AllocError>
    requires valid { IsInstance (Abs k) (instance net.now problem.now) }
    requires searched { MaySearch nodes problem.now }
    requires few { k ≤ 64 }
    requires spent { IsSpentBy nodes (instance net.now problem.now) (any_error k) trail }
    ensures { IfOk result (AttemptsAs nodes (instance net.now problem.now) (any_error k)) }
{
    let weighed = Weighed {
        paths: k,
        lower: 0,
        error: None,
        nodes,
    };
    let found = closer_nearest(alloc, net, problem, weighed)?;
    let decision = Decision {
        slots: k,
        limit: None,
    };
    let paths = checked_answer(alloc, net, problem, decision, found.answer)?;
    let tree = checked_tree(alloc, net, problem, nodes, found.tree)?;
    Ok(first_of(decision, paths, tree, trail))
}

/// An answer, where there is one; else a refutation of the decision, where there is one; else the trail.
fn first_of(decision: Decision, paths: Option<Answer>, tree: Option<Trail>, trail: Trail) -> Attempt
    ensures { (nodes : ℕ) (i : Instance) → IfSome paths (IsFoundFor i decision) → IfSome tree (IsRefutedAlone nodes i) → IsSpentBy nodes i decision trail → AttemptsAs nodes i decision result }
{
    if let Some(paths) = paths {
        return Attempt::Found(paths);
    }
    match tree {
        Some(tree) => {
            if tree.decision == decision {
                Attempt::Refuted(tree)
            } else {
                Attempt::Spent(trail)
            }
        }
        None => Attempt::Spent(trail),
    }
}

/// Paths with their error, a lower bound with what shows it, and the trail of a search that was spent.
#[derive(Debug, Drop)]
struct Halved {
    paths: Answer,
    lower: u64,
    upper: u64,
    cert: Cert,
    trail: Option<Trail>,
}

/// Searches for less and less error from a first answer; where one is spent, once for closer bounds, and from there again.
fn find_least(
    alloc: Global,
    net: &Net,
    problem: &Problem,
    nodes: u32,
    k: u32,
    first: Answer,
) -> Result<Halved, AllocError>
    requires valid { IsInstance (Abs k) (instance net.now problem.now) }
    requires searched { MaySearch nodes problem.now }
    requires few { k ≤ 64 }
    requires found { IsFoundFor (instance net.now problem.now) (any_error k) first }
    ensures halves { IfOk result (HalvesTo nodes k (instance net.now problem.now)) }
    ensures better { IfOk result (λ halved. halved.upper ≤ error (instance net.now problem.now) first) }
{
    prove!(net.edges() <= 4096);
    let begun = Halved {
        lower: 0,
        upper: error_of(net, problem, &first) as u64,
        paths: first,
        cert: Cert::Zero,
        trail: None,
    };
    let halved = halve_error(alloc, net, problem, nodes, k, begun)?;
    let closer = bring_closer(alloc, net, problem, nodes, k, halved)?;
    halve_error(alloc, net, problem, nodes, k, closer)
}

/// Brings the bounds closer by a search that is trusted for nothing, where a search was spent.
fn bring_closer(
    alloc: Global,
    net: &Net,
    problem: &Problem,
    nodes: u32,
    k: u32,
    halved: Halved,
) -> Result<Halved, AllocError>
    requires valid { IsInstance (Abs k) (instance net.now problem.now) }
    requires searched { MaySearch nodes problem.now }
    requires few { k ≤ 64 }
    requires between { IsHalving nodes k (instance net.now problem.now) halved }
    ensures between { IfOk result (IsHalving nodes k (instance net.now problem.now)) }
    ensures better { IfOk result (λ after. after.upper ≤ halved.upper) }
{
    if halved.trail.is_none() {
        return Ok(halved);
    }
    let weighed = Weighed {
        paths: k,
        lower: halved.lower,
        error: Some(halved.upper),
        nodes,
    };
    let found = closer_nearest(alloc, net, problem, weighed)?;
    let lowered = lower_by(alloc, net, problem, nodes, k, halved, found.answer)?;
    let tree = checked_tree(alloc, net, problem, nodes, found.tree)?;
    Ok(raise_by(k, lowered, tree))
}

/// The upper bound is that of an answer that was found, where it is less.
fn lower_by(
    alloc: Global,
    net: &Net,
    problem: &Problem,
    nodes: u32,
    k: u32,
    halved: Halved,
    found: Option<Answer>,
) -> Result<Halved, AllocError>
    requires valid { IsInstance (Abs k) (instance net.now problem.now) }
    requires cap { problem.now.cap ≡ greatest_hi problem.now.ranges }
    requires few { k ≤ 64 }
    requires between { IsHalving nodes k (instance net.now problem.now) halved }
    ensures between { IfOk result (IsHalving nodes k (instance net.now problem.now)) }
    ensures better { IfOk result (λ after. after.upper ≤ halved.upper) }
{
    if halved.upper == 0 {
        return Ok(halved);
    }
    let decision = Decision {
        slots: k,
        limit: Some(halved.upper - 1),
    };
    match checked_answer(alloc, net, problem, decision, found)? {
        Some(paths) => Ok(Halved {
            upper: error_of(net, problem, &paths) as u64,
            paths,
            trail: None,
            ..halved
        }),
        None => Ok(halved),
    }
}

/// The lower bound is that of a refutation, where it is greater.
fn raise_by(k: u32, halved: Halved, tree: Option<Trail>) -> Halved
    ensures between { (nodes : ℕ) (i : Instance) → IsInstance (Abs k) i → IsHalving nodes k i halved → IfSome tree (IsRefutedAlone nodes i) → IsHalving nodes k i result }
    ensures better { result.upper ≤ halved.upper }
{
    let Some(tree) = tree else {
        return halved;
    };
    match tree.decision.limit {
        Some(limit) => {
            if tree.decision.slots == k && limit >= halved.lower && limit < halved.upper {
                Halved {
                    lower: limit + 1,
                    cert: Cert::Tree(tree),
                    trail: None,
                    ..halved
                }
            } else {
                halved
            }
        }
        None => halved,
    }
}

/// Searches for less and less error, each time for half of what lies between the bounds, unless a search was spent.
fn halve_error(
    alloc: Global,
    net: &Net,
    problem: &Problem,
    nodes: u32,
    k: u32,
    begun: Halved,
) -> Result<Halved, AllocError>
    requires valid { IsInstance (Abs k) (instance net.now problem.now) }
    requires searched { MaySearch nodes problem.now }
    requires few { k ≤ 64 }
    requires between { IsHalving nodes k (instance net.now problem.now) begun }
    ensures halves { IfOk result (HalvesTo nodes k (instance net.now problem.now)) }
    ensures better { IfOk result (λ halved. halved.upper ≤ begun.upper) }
{
    let mut halved = begun;
    while halved.lower < halved.upper && halved.trail.is_none() {
        halved = halve_once(alloc, net, problem, nodes, k, halved)?;
    }
    Ok(halved)
}

/// One search, for half of what lies between the bounds.
fn halve_once(
    alloc: Global,
    net: &Net,
    problem: &Problem,
    nodes: u32,
    k: u32,
    halved: Halved,
) -> Result<Halved, AllocError>
    requires valid { IsInstance (Abs k) (instance net.now problem.now) }
    requires searched { MaySearch nodes problem.now }
    requires few { k ≤ 64 }
    requires between { IsHalving nodes k (instance net.now problem.now) halved }
    requires apart { halved.lower < halved.upper }
    requires goes_on { halved.trail ≡ None }
    ensures between { IfOk result (IsHalving nodes k (instance net.now problem.now)) }
    ensures better { IfOk result (λ after. after.upper ≤ halved.upper) }
    ensures nearer { IfOk result (λ after. steps_left after < steps_left halved) }
{
    let limit = (halved.lower + halved.upper) / 2;
    let decision = Decision {
        slots: k,
        limit: Some(limit),
    };
    match search_once(alloc, net, problem, nodes, decision)? {
        Attempt::Found(paths) => Ok(Halved {
            upper: error_of(net, problem, &paths) as u64,
            paths,
            ..halved
        }),
        Attempt::Refuted(tree) => Ok(Halved {
            lower: limit + 1,
            cert: Cert::Tree(tree),
            ..halved
        }),
        Attempt::Spent(trail) => Ok(Halved {
            trail: Some(trail),
            ..halved
        }),
    }
}

/// What is said of paths whose error was halved so far.
fn halved_by(halved: Halved) -> Solved
    ensures right { (s : Given) (k : ℕ) (i : Instance) → s.mode ≡ Abs k → s.safe ≡ false → IsHalvedFor s.nodes k i halved → SolvedRight s i result }
    ensures found { (nodes : ℕ) (k : ℕ) (i : Instance) → IsHalvedFor nodes k i halved → IsFoundIn i.graph result }
{
    let mark = match halved.trail {
        None => Mark::Optimal,
        Some(_) => Mark::Bounds,
    };
    Solved {
        mark,
        lower: Some(halved.lower),
        upper: Some(halved.upper),
        paths: halved.paths,
        cert: halved.cert,
        trail: halved.trail,
        safe: None,
    }
}
