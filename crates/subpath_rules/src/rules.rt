//! Rules: runs that some path of an answer must contain.

ghost use Rattle.std.specs.Prelude.{◌≡◌, ◌↔◌, ◌^◌, ◌<◌, [], length, slice_index_or, IfOk, IfErr, IsTrue};
ghost use Rattle.std.specs.List.{list_all};
ghost use Rattle.decomposition.specs.Graph.{is_run, paths, RunsShareAPath};
ghost use Rattle.decomposition.specs.Answer.{Covers};
ghost use Rattle.decomposition.specs.Boxes.{may_contain};
ghost use Rattle.decomposition.specs.Reach.{IsBegun};
ghost use Rattle.subpath_rules.specs.Rules.{AreRulesOf};
ghost use Rattle.subpath_rules.specs.Faults.{IsFaultOf};

use crate::follows::follows;
use crate::listed::{first_no_run, without_repeats};
use crate::standing::is_covered;
use dag_net::{Answer, IdLists, Net};
use std::alloc::{AllocError, Global};
use std::marker::Model;
use thiserror::Error;

/// Why a list makes no rules.
#[derive(Debug, Drop, Error)]
pub enum RuleFault {
    #[error("list {index} is no run")]
    NotARun { index: u32 },
    #[error("out of memory")]
    Memory,
}

impl From<AllocError> for RuleFault {
    ghost use Rattle.std.specs.Prelude.{◌≡◌};
    ghost use Rattle.subpath_rules.specs.declared.rules.RuleFault.TheVariants.{Memory};

    ghost from_gives = { λ _ fault. fault ≡ Memory };

    fn from(_error: AllocError) -> Self {
        RuleFault::Memory
    }
}

/// Runs that some path of an answer must contain.
#[derive(Debug, Drop)]
pub struct Rules {
    runs: IdLists,
}

impl Model for Rules {
    ghost use Rattle.std.specs.Prelude.{ℕ, ◌<◌, ◌^◌, List, length};

    ghost Value = { List (List ℕ) };

    ghost view = { λ rules. rules.runs };

    ghost invariant = { λ rules. length rules.runs < 2 ^ 32 };
}

impl Rules {
    /// The listed runs, each once, or the first list that is no run of the net.
    pub fn build(alloc: Global, net: &Net, runs: &IdLists) -> Result<Rules, RuleFault>
        requires { length runs.now < 2 ^ 32 }
        ensures rules { IfOk result (AreRulesOf net.now runs.now) }
        ensures fault { IfErr result (IsFaultOf net.now runs.now) }
    {
        if let Some(index) = first_no_run(net, runs) {
            return Err(RuleFault::NotARun { index });
        }
        let runs = without_repeats(alloc, runs)?;
        Ok(Rules { runs })
    }

    /// The number of rules.
    pub fn len(&self) -> u32
        ensures { result ≡ length self.now }
    {
        self.runs.len() as u32
    }

    /// The run of a rule, counted from 0.
    pub fn run(&self, i: u32) -> &[u32]
        requires { i < length self.now }
        ensures { result.now ≡ slice_index_or self.now i [] }
    {
        self.runs.get(i as usize).as_slice()
    }

    /// Whether each rule stands in some path of the answer, entry after entry.
    pub fn covered(&self, answer: &Answer) -> bool
        ensures { IsTrue result ↔ Covers self.now answer.now }
    {
        for i in 0..self.len() {
            if !is_covered(self.run(i), answer) {
                return false;
            }
        }
        true
    }

    /// Whether some path begins with the walk and contains the rule.
    pub fn may_contain(&self, net: &Net, walk: &[u32], rule: u32) -> bool
        requires begun { IsBegun net.now walk.now }
        requires rule { rule < length self.now }
        requires runs { IsTrue (list_all (is_run net.now) self.now) }
        ensures { result ≡ may_contain (paths net.now) walk.now (slice_index_or self.now rule []) }
    {
        let run = self.run(rule);
        prove!(run[0] < net.edges());
        walk.is_empty() || follows(net, walk, run)
    }

    /// Whether some path contains both rules.
    pub fn compatible(&self, net: &Net, i: u32, j: u32) -> bool
        requires first { i < length self.now }
        requires second { j < length self.now }
        requires runs { IsTrue (list_all (is_run net.now) self.now) }
        ensures { IsTrue result ↔ RunsShareAPath net.now (slice_index_or self.now i []) (slice_index_or self.now j []) }
    {
        let first = self.run(i);
        let second = self.run(j);
        prove!(first[0] < net.edges());
        follows(net, first, second) || follows(net, second, first)
    }
}
