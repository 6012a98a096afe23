//! Crowds: more rules through an edge than it can carry paths, no two of them on one path.
ghost use Rattle.std.specs.Prelude.{◌≡◌, ◌+◌, ◌<◌, ◌↔◌, ℕ, All, length, IfNone, IfOk, IfSome, IsFalse, IsTrue, OnOk};
ghost use Rattle.std.specs.List.{list_all};
ghost use Rattle.decomposition.specs.Certificates.{AreRunsApart, IsCrowd};
ghost use Rattle.decomposition.specs.Graph.{edge_count, is_run};
ghost use Rattle.flow_models.specs.Problem.{instance};
ghost use Rattle.report_terms.specs.NetFacts.{AreRisingRules};
ghost use Rattle.flow_solver.specs.Crowds.{AreTakenApart, CarriesTaken, EachCarriesTaken, IsHeldBack};

use cert_check::check_crowd;
use dag_net::{Ids, Net};
use flow_models::Problem;
use std::alloc::{AllocError, Global};

/// An edge, and rules that contain it.
#[derive(Debug, Drop)]
pub struct Crowd {
    pub edge: u32,
    pub rules: Ids,
}

/// The crowd of the first edge at which one is found. At each edge every rule through it is taken that goes on no path with
/// one taken before it; where no crowd is answered, each edge carries as many paths as rules are taken there. That this
/// finds each crowd is not claimed.
pub fn find_crowd(alloc: Global, net: &Net, problem: &Problem) -> Result<Option<Crowd>, AllocError>
    requires ranged { length problem.now.ranges ≡ edge_count net.now }
    requires runs { IsTrue (list_all (is_run net.now) problem.now.rules) }
    ensures crowd { IfOk result (λ found. IfSome found (λ crowd. IsCrowd (instance net.now problem.now) crowd.edge crowd.rules)) }
    ensures rising { IfOk result (λ found. IfSome found (λ crowd. AreRisingRules crowd.rules)) }
    ensures taken { IfOk result (λ found. IfSome found (λ crowd. AreTakenApart (length problem.now.rules) (instance net.now problem.now) crowd.edge crowd.rules)) }
    ensures first { IfOk result (λ found. IfSome found (λ crowd. (e : ℕ) → e < crowd.edge → CarriesTaken (instance net.now problem.now) e)) }
    ensures none { IfOk result (λ found. IfNone found (EachCarriesTaken (instance net.now problem.now))) }
{
    for edge in 0..net.edges() {
        let rules = rules_apart(alloc, net, problem, edge)?;
        if check_crowd(net, problem, edge, rules.as_slice()) {
            return Ok(Some(Crowd { edge, rules }));
        }
    }
    Ok(None)
}

/// Rules through an edge, each one that goes on no path with those before it.
fn rules_apart(alloc: Global, net: &Net, problem: &Problem, edge: u32) -> Result<Ids, AllocError>
    requires { IsTrue (list_all (is_run net.now) problem.now.rules) }
    ensures rising { IfOk result AreRisingRules }
    ensures taken { IfOk result (AreTakenApart (length problem.now.rules) (instance net.now problem.now) edge) }
{
    let mut apart = Ids::new(alloc);
    for rule in 0..problem.rules.len() {
        take_apart(net, problem, edge, rule, &mut apart)?;
    }
    prove!(apart.len() <= usize::MAX);
    Ok(apart)
}

/// Takes a rule to those before it, if it goes through the edge and on no path with one of them.
fn take_apart(
    net: &Net,
    problem: &Problem,
    edge: u32,
    rule: u32,
    apart: &mut Ids,
) -> Result<(), AllocError>
    requires runs { IsTrue (list_all (is_run net.now) problem.now.rules) }
    requires rule { rule < length problem.now.rules }
    requires taken { AreTakenApart rule (instance net.now problem.now) edge apart.old }
    ensures { OnOk result (AreTakenApart (rule + 1) (instance net.now problem.now) edge apart.new) }
{
    if problem.rules.run(rule).contains(&edge)
        && goes_with_none(net, problem, rule, apart.as_slice())
    {
        return apart.push(rule);
    }
    Ok(())
}

/// Whether a rule goes on no path with one of those before it.
fn goes_with_none(net: &Net, problem: &Problem, rule: u32, others: &[u32]) -> bool
    requires runs { IsTrue (list_all (is_run net.now) problem.now.rules) }
    requires rule { rule < length problem.now.rules }
    requires before { All (λ other. other < rule) others.now }
    ensures apart { IsTrue result ↔ AreRunsApart (instance net.now problem.now) rule others.now }
    ensures held_back { IsFalse result → IsHeldBack (instance net.now problem.now) others.now rule }
{
    for &other in others {
        if problem.rules.compatible(net, rule, other) {
            return false;
        }
    }
    true
}
