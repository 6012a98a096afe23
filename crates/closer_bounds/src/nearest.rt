//! Closer bounds on the least error of at most so many paths.

use crate::budget::{Budget, first_round, next_round};
use crate::closer::{Closer, Tree};
use crate::deciding::{Decided, decide};
use dag_net::{Answer, Net};
use decomposition::Decision;
use flow_models::Problem;
use near_answers::{Descent, Rounds};
use search_rooms::Amounts;
use std::alloc::{AllocError, Global};
use tree_search::{Ground, Profile};

/// Descents are begun so often, go on for so many rounds, and cost so many units together.
const SEEDS: u64 = 4;

const ROUNDS: u32 = 60;

const DESCENT: u64 = 24;

/// In units, for all decisions of a round: a quarter of it.
const DECISIONS: u64 = 96;

/// Where the bounds are nearer than this part of the error they are not halved any more.
const NEAR: u64 = 64;

/// So many limits are tried at most in a round.
const LIMITS: u32 = 64;

/// There are at most so many rounds of more and more tokens.
const MOST_ROUNDS: u32 = 16;

/// What is known before: how many paths there may be, a lower bound on the error, the error of an answer, if one is known, and the
/// tokens that a refutation may have.
#[derive(Clone, Copy)]
pub struct Weighed {
    pub paths: u32,
    pub lower: u64,
    pub error: Option<u64>,
    pub nodes: u32,
}

/// What is known of the least error.
#[derive(Drop)]
struct Nearest<'a> {
    problem: &'a Problem,
    ground: &'a Ground<'a>,
    paths: u32,
    lower: u64,
    /// The error of the best answer, if one is known.
    error: Option<u64>,
    answer: Option<Answer>,
    tree: Option<Tree>,
}

/// By how much the sums on the edges lie outside the ranges.
fn error_of(alloc: Global, problem: &Problem, answer: &Answer) -> Result<u64, AllocError> {
    let ranges = problem.ranges.as_slice();
    let mut sums = Amounts::zeros(alloc, u32::try_from(ranges.len()).unwrap_or(0))?;
    for i in 0..answer.len() {
        let weight = answer.weight(i);
        for &e in answer.path(i).as_slice() {
            sums.put(e, sums.at(e).saturating_add(weight));
        }
    }
    let mut error = 0u64;
    let mut e = 0u32;
    for range in ranges {
        let sum = sums.at(e);
        error = error.saturating_add(range.lo.saturating_sub(sum));
        error = error.saturating_add(sum.saturating_sub(range.hi));
        e = e.saturating_add(1);
    }
    Ok(error)
}

/// Looks for paths of less error than is known, and for refutations of errors above the lower bound.
pub fn closer_nearest(
    alloc: Global,
    net: &Net,
    problem: &Problem,
    weighed: Weighed,
) -> Result<Closer, AllocError> {
    let ground = Ground::of(alloc, net)?;
    let mut nearest = Nearest {
        problem,
        ground: &ground,
        paths: weighed.paths,
        lower: weighed.lower,
        error: weighed.error,
        answer: None,
        tree: None,
    };
    nearest.search(alloc, net.edges(), weighed.nodes)?;
    Ok(Closer {
        answer: nearest.answer,
        tree: nearest.tree,
    })
}

impl<'a> Nearest<'a> {
    /// Whether the bounds meet, or no paths cover at all.
    fn is_closed(&self) -> bool {
        match self.error {
            Some(error) => self.lower >= error,
            None => self.tree.is_some(),
        }
    }

    /// Keeps an answer of less error.
    fn improve(&mut self, answer: Answer, error: u64) {
        let is_better = match self.error {
            Some(least) => error < least,
            None => true,
        };
        if is_better && self.problem.rules.covered(&answer) {
            self.error = Some(error);
            self.answer = Some(answer);
        }
    }

    /// Keeps a refutation.
    fn raise(&mut self, tree: Tree) {
        if let Some(limit) = tree.decision.limit {
            self.lower = limit.saturating_add(1);
        }
        self.tree = Some(tree);
    }

    /// Round after round of more and more tokens, until the bounds meet.
    fn search(&mut self, alloc: Global, edges: u32, nodes: u32) -> Result<(), AllocError> {
        let mut tokens = first_round(nodes);
        for _ in 0..MOST_ROUNDS {
            let mut budget = Budget::of(tokens, edges);
            self.descend(alloc, &mut budget)?;
            self.refute(alloc, &mut budget)?;
            if self.is_closed() || tokens >= nodes {
                break;
            }
            tokens = next_round(tokens, nodes);
        }
        Ok(())
    }

    /// Descents of several seeds.
    fn descend(&mut self, alloc: Global, budget: &mut Budget) -> Result<(), AllocError> {
        let mut descent = Descent::prepare(alloc, self.ground.view(), self.problem, self.paths)?;
        let mut purse = budget.lend(DESCENT);
        for seed in 1..=SEEDS {
            let how = Rounds {
                rounds: ROUNDS,
                seed,
                zero: false,
            };
            if let Some(error) = descent.descend(self.paths, how, &mut purse) {
                if self.error.is_none_or(|least| error < least) {
                    self.improve(descent.answer(alloc)?, error);
                }
            }
        }
        budget.settle(&purse);
        Ok(())
    }

    /// Decides whether there is less error than is known, and where that is spent whether there is half of what lies between.
    fn refute(&mut self, alloc: Global, budget: &mut Budget) -> Result<(), AllocError> {
        let mut below: Option<u64> = None;
        let mut share = budget.part(DECISIONS);
        for _ in 0..LIMITS {
            if self.is_closed() {
                break;
            }
            let Some(limit) = self.limit(below) else {
                break;
            };
            if self.decide(alloc, limit, &mut share)? {
                below = self.nearer(below);
            } else if limit.is_some() {
                below = limit;
            } else {
                break;
            }
        }
        budget.settle_part(&share);
        Ok(())
    }

    /// The least limit at which the search was spent, at most the error that is known.
    fn nearer(&self, below: Option<u64>) -> Option<u64> {
        match (below, self.error) {
            (Some(spent), Some(error)) => Some(spent.min(error)),
            _ => below,
        }
    }

    /// The limit to be tried next; none where the bounds are near.
    fn limit(&self, below: Option<u64>) -> Option<Option<u64>> {
        let Some(error) = self.error else {
            return Some(None);
        };
        let Some(spent) = below else {
            return Some(Some(error.saturating_sub(1)));
        };
        let apart = spent.saturating_sub(self.lower);
        if apart <= 1 || apart < error / NEAR {
            return None;
        }
        Some(Some(self.lower.midpoint(spent)))
    }

    /// Decides whether there are paths of an error within the limit; false where the search was spent.
    fn decide(
        &mut self,
        alloc: Global,
        limit: Option<u64>,
        budget: &mut Budget,
    ) -> Result<bool, AllocError> {
        let decision = Decision {
            slots: self.paths,
            limit,
        };
        let profiles = [Profile::Eighths, Profile::InTurn];
        match decide(
            alloc,
            self.ground,
            self.problem,
            decision,
            &profiles,
            budget,
        )? {
            Decided::Refuted(tree) => self.raise(tree),
            Decided::Found(answer) => {
                let error = error_of(alloc, self.problem, &answer)?;
                self.improve(answer, error);
            }
            Decided::Spent => return Ok(false),
        }
        Ok(true)
    }
}
