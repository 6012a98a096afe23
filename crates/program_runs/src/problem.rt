//! The problem that a graph poses.
ghost use Rattle.std.specs.Prelude.{◌≡◌, ◌<◌, ◌^◌, length, IfOk, IsTrue};
ghost use Rattle.std.specs.List.{list_all};
ghost use Rattle.decomposition.specs.Graph.{is_run};
ghost use Rattle.decomposition.specs.Instance.{greatest_hi};
ghost use Rattle.subpath_rules.specs.Rules.{AreRulesOf};

use dag_net::Ranges;
use flow_models::Problem;
use graph_text::RawGraph;
use std::alloc::{AllocError, Global};
use subpath_rules::{RuleFault, Rules};

/// The problem of a graph: its ranges, its runs as rules, each once, and the greatest of 1 and all upper bounds. The only error is
/// want of memory. Costs a step for each range, and for each run its length times the logarithm of the number of runs.
pub fn problem_of(alloc: Global, graph: &RawGraph) -> Result<Problem, AllocError>
    requires runs { IsTrue (list_all (is_run graph.now.net) graph.now.runs) }
    requires few { length graph.now.runs < 2 ^ 32 }
    ensures ranges { IfOk result (λ problem. problem.ranges ≡ graph.now.ranges) }
    ensures rules { IfOk result (λ problem. AreRulesOf graph.now.net graph.now.runs problem.rules) }
    ensures cap { IfOk result (λ problem. problem.cap ≡ greatest_hi problem.ranges) }
{
    let mut ranges = Ranges::new(alloc);
    for &range in graph.ranges.as_slice() {
        ranges.push(range)?;
    }
    let rules = match Rules::build(alloc, &graph.net, &graph.runs) {
        Ok(rules) => rules,
        Err(RuleFault::Memory) => return Err(AllocError),
        Err(RuleFault::NotARun { index: _ }) => unreachable!(),
    };
    Ok(Problem::new(&graph.net, ranges, rules))
}
