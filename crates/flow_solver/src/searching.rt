//! One search for an answer to a decision.
ghost use Rattle.std.specs.Prelude.{◌≡◌, ◌≤◌, ◌<◌, ◌^◌, IfOk};
ghost use Rattle.decomposition.specs.declared.Mode.{Mode as AMode};
ghost use Rattle.decomposition.specs.Instance.{IsInstance, greatest_hi};
ghost use Rattle.flow_models.specs.Problem.{instance};
ghost use Rattle.report_terms.specs.NetFacts.{IsSmall};
ghost use Rattle.flow_solver.specs.Asked.{MaySearch};
ghost use Rattle.flow_solver.specs.Searched.{AttemptsAs};

use branch_bound::{Outcome, Search};
use dag_net::{Answer, Net};
use decomposition::{Decision, Token};
use flow_models::Problem;
use report_terms::{Tokens, Trail};
use std::alloc::{AllocError, Global};

/// What one search came to.
#[derive(Debug, Drop)]
pub enum Attempt {
    /// An answer to the decision.
    Found(Answer),
    /// There is none.
    Refuted(Trail),
    /// The search used up its tokens.
    Spent(Trail),
}

/// Searches for an answer to a decision, with at most so many tokens.
pub fn search_once(
    alloc: Global,
    net: &Net,
    problem: &Problem,
    nodes: u32,
    decision: Decision,
) -> Result<Attempt, AllocError>
    requires valid { (mode : AMode) × IsInstance mode (instance net.now problem.now) }
    requires searched { MaySearch nodes problem.now }
    requires few { decision.slots ≤ 8192 }
    requires small { IsSmall decision.limit }
    ensures { IfOk result (AttemptsAs nodes (instance net.now problem.now) decision) }
{
    prove!(problem.rules.len() <= u32::MAX);
    let mut search = Search::prepare(alloc, net, problem, decision, nodes)?;
    match search.run() {
        Outcome::Found => {
            let answer = search.answer(alloc)?;
            Ok(Attempt::Found(answer.tidy(alloc)?))
        }
        Outcome::Refuted => Ok(Attempt::Refuted(trail_of(alloc, decision, search.tokens())?)),
        Outcome::Spent => Ok(Attempt::Spent(trail_of(alloc, decision, search.tokens())?)),
    }
}

/// A decision, and a copy of the tokens of its search.
pub fn trail_of(alloc: Global, decision: Decision, tokens: &[Token]) -> Result<Trail, AllocError>
    ensures decision { IfOk result (λ trail. trail.decision ≡ decision) }
    ensures tokens { IfOk result (λ trail. trail.tokens ≡ tokens.now) }
    ensures small { IfOk result (λ trail. (trail.decision.slots < 2 ^ 32) × IsSmall trail.decision.limit) }
{
    let mut copy = Tokens::new(alloc);
    for &token in tokens {
        copy.push(token)?;
    }
    Ok(Trail {
        decision,
        tokens: copy,
    })
}
