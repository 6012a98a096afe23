//! The search: it applies the rule token of the first box again and again.

ghost use Rattle.std.specs.Prelude.{◌≡◌, ◌≤◌, ◌<◌, [], ◌++◌, List, length, Some, None, IfOk, IfSome, IsTrue};
ghost use Rattle.std.specs.List.{list_all};
ghost use Rattle.decomposition.specs.declared.Mode.{Mode};
ghost use Rattle.decomposition.specs.declared.Token.{Token};
ghost use Rattle.decomposition.specs.Graph.{edge_count, is_run};
ghost use Rattle.decomposition.specs.Boxes.{Slot};
ghost use Rattle.decomposition.specs.Instance.{greatest_hi, IsInstance};
ghost use Rattle.decomposition.specs.Tokens.{rule_list};
ghost use Rattle.decomposition.specs.Held.{box_answer, Settles};
ghost use Rattle.decomposition.specs.Searches.{EndsFound};
ghost use Rattle.flow_models.specs.Problem.{instance};
ghost use Rattle.branch_bound.specs.Search.{IsOnList, GoesOn, EndsAs, TokensShow, steps_left};
ghost use Rattle.branch_bound.specs.declared.search.Outcome.TheVariants.{Found};

use crate::rule::rule_token;
use dag_net::{Answer, Net};
use decomposition::{Decision, Token};
use flow_models::Problem;
use refute_tree::Front;
use std::alloc::{AllocError, Global};
use std::marker::Model;

/// How a search ends.
#[derive(Clone, Copy, Debug, PartialEq, Eq)]
pub enum Outcome {
    /// No token may be taken at the first box, which gives an answer to the decision.
    Found,
    /// No box is left, so the tokens refute the decision.
    Refuted,
    /// All tokens that there may be were applied, and some token may be taken at the first box.
    Spent,
}

/// A search for an answer to a decision, which applies at most so many tokens.
#[derive(Debug, Drop)]
pub struct Search<'a> {
    front: Front<'a>,
    decision: Decision,
    nodes: u32,
    tokens: Vec<Token>,
    outcome: Option<Outcome>,
}

impl<'a> Model for Search<'a> {
    ghost use Rattle.branch_bound.specs.Search.{SearchState};

    ghost Value = { SearchState };

    ghost use Rattle.branch_bound.specs.Kept.{shown, IsKept};

    ghost view = { shown };

    ghost invariant = { IsKept };
}

impl<'a> Search<'a> {
    /// A search that has applied no token yet, with room for so many.
    pub fn prepare(
        alloc: Global,
        net: &'a Net,
        p: &'a Problem,
        d: Decision,
        nodes: u32,
    ) -> Result<Search<'a>, AllocError>
        requires ranged { length p.now.ranges ≡ edge_count net.now }
        requires rules { IsTrue (list_all (is_run net.now) p.now.rules) }
        requires cap { p.now.cap ≡ greatest_hi p.now.ranges }
        requires least { 1 ≤ nodes }
        requires most { nodes ≤ 1000000 }
        ensures { IfOk result (λ search. search ≡ record { instance = instance net.now p.now; decision = d; nodes = nodes; tokens = []; outcome = None }) }
    {
        Ok(Search {
            front: Front::root(alloc, net, p, &d, nodes)?,
            decision: d,
            nodes,
            tokens: Vec::with_capacity(alloc, nodes as usize)?,
            outcome: None,
        })
    }

    /// Applies rule tokens until the search ends, and tells how. Once it has ended it stays so. It takes no memory.
    pub fn run(&mut self) -> Outcome
        ensures outcome { self.new.outcome ≡ Some result }
        ensures tokens { self.new.tokens ≡ rule_list self.old.instance self.old.decision self.old.nodes }
        ensures ends { EndsAs self.old.instance self.old.decision self.old.nodes result }
        ensures shows { TokensShow self.new result }
        ensures again { IfSome self.old.outcome (λ outcome. (result ≡ outcome) × (self.new ≡ self.old)) }
        ensures instance { self.new.instance ≡ self.old.instance }
        ensures decision { self.new.decision ≡ self.old.decision }
        ensures nodes { self.new.nodes ≡ self.old.nodes }
        ensures onward { (more : List Token) × (self.new.tokens ≡ self.old.tokens ++ more) }
        ensures listed { IsOnList self.new }
    {
        loop {
            if let Some(outcome) = self.outcome {
                return outcome;
            }
            self.advance();
        }
    }

    /// The answer that was found: that of the first box that the tokens leave.
    pub fn answer(&self, alloc: Global) -> Result<Answer, AllocError>
        requires { self.now.outcome ≡ Some Found }
        ensures answer { IfOk result (λ a. (b : List Slot) × EndsFound self.now.instance self.now.decision self.now.nodes b × (a ≡ box_answer self.now.instance b)) }
        ensures settles { IfOk result (λ a. (mode : Mode) → IsInstance mode self.now.instance → Settles self.now.instance self.now.decision a) }
    {
        match self.front.answer(alloc)? {
            Some(answer) => Ok(answer),
            None => unreachable!(),
        }
    }

    /// The tokens applied so far.
    pub fn tokens(&self) -> &[Token]
        ensures tokens { result.now ≡ self.now.tokens }
        ensures most { length result.now ≤ self.now.nodes }
        ensures listed { IsOnList self.now }
    {
        &self.tokens
    }

    /// Applies the rule token of the first box, or notes how the search ends.
    fn advance(&mut self)
        requires { self.old.outcome ≡ None }
        ensures goes_on { GoesOn self.old self.new }
        ensures nearer { steps_left self.new < steps_left self.old }
    {
        match rule_token(&self.front, self.decision.slots) {
            Some(token) if self.front.used() < self.nodes => {
                self.front.apply(token);
                self.tokens.push(token).unwrap();
            }
            Some(_) => self.outcome = Some(Outcome::Spent),
            None if self.front.left() > 0 => self.outcome = Some(Outcome::Found),
            None => self.outcome = Some(Outcome::Refuted),
        }
    }
}
