//! Closer bounds where paths are counted: fewer paths, and refutations of more of them.

use crate::budget::{Budget, first_round, next_round};
use crate::closer::{Closer, Tree};
use crate::deciding::{Decided, decide};
use dag_net::{Answer, Net};
use decomposition::Decision;
use fewer_answers::Finder;
use flow_models::Problem;
use near_answers::{Descent, Rounds, Routed, route};
use search_rooms::{Amounts, Purse};
use std::alloc::{AllocError, Global};
use tree_search::{Ground, Profile};

/// Refutations are looked for of at most so many paths.
const MOST_SLOTS: u32 = 64;

/// In units: for answers before and after the climb, for those that may happen to cover constraints, and for one descent.
const FIRST_ANSWERS: u64 = 2;

const MORE_ANSWERS: u64 = 30;

const LUCKY_ANSWERS: u64 = 1;

const DESCENT: u64 = 24;

/// In units, for all descents of a round: a graph on which none gains anything leaves most of the round to refutations.
const DESCENTS: u64 = 48;

/// A descent within the ranges goes on for so many rounds.
const ROUNDS: u32 = 30;

/// There are at most so many rounds of more and more tokens.
const MOST_ROUNDS: u32 = 16;

/// What is known before: the widest antichain, how many paths are known, if any, and the tokens that a refutation may have.
#[derive(Clone, Copy)]
pub struct Counted<'a> {
    pub antichain: &'a [u32],
    pub paths: Option<u32>,
    pub nodes: u32,
}

/// What is known of the fewest paths.
#[derive(Drop)]
struct Fewest<'a> {
    net: &'a Net,
    problem: &'a Problem,
    ground: &'a Ground<'a>,
    antichain: &'a [u32],
    /// The flow, where each range is one number.
    flow: Option<Vec<u64>>,
    finder: Option<Finder>,
    lower: u32,
    /// One more than the most paths that are still asked for.
    upper: u32,
    is_known: bool,
    answer: Option<Answer>,
    tree: Option<Tree>,
}

/// The weight of each edge, where each range is one number.
fn flow_of(alloc: Global, problem: &Problem) -> Result<Option<Vec<u64>>, AllocError> {
    let mut flow = Vec::new(alloc);
    for range in problem.ranges.as_slice() {
        if range.lo != range.hi {
            return Ok(None);
        }
        flow.push(range.lo)?;
    }
    Ok(Some(flow))
}

/// Looks for fewer paths than are known, and for refutations of more paths than the width.
pub fn closer_fewest(
    alloc: Global,
    net: &Net,
    problem: &Problem,
    counted: Counted,
) -> Result<Closer, AllocError> {
    let ground = Ground::of(alloc, net)?;
    let most = net.edges().saturating_add(problem.rules.len());
    let width = u32::try_from(counted.antichain.len()).unwrap_or(u32::MAX);
    let mut fewest = Fewest {
        net,
        problem,
        ground: &ground,
        antichain: counted.antichain,
        flow: flow_of(alloc, problem)?,
        finder: None,
        lower: width,
        upper: counted.paths.unwrap_or(most.saturating_add(1)),
        is_known: counted.paths.is_some(),
        answer: None,
        tree: None,
    };
    fewest.search(alloc, counted.nodes)?;
    Ok(Closer {
        answer: fewest.answer,
        tree: fewest.tree,
    })
}

impl<'a> Fewest<'a> {
    fn is_closed(&self) -> bool {
        self.lower >= self.upper
    }

    /// Keeps an answer of fewer paths.
    fn improve(&mut self, answer: Answer) {
        let count = u32::try_from(answer.len()).unwrap_or(u32::MAX);
        if count < self.upper {
            self.upper = count;
            self.is_known = true;
            self.answer = Some(answer);
        }
    }

    /// Keeps a refutation.
    fn raise(&mut self, tree: Tree) {
        self.lower = tree.decision.slots.saturating_add(1);
        self.tree = Some(tree);
    }

    /// Round after round of more and more tokens, until the bounds meet.
    fn search(&mut self, alloc: Global, nodes: u32) -> Result<(), AllocError> {
        let mut tokens = first_round(nodes);
        for round in 0..MOST_ROUNDS {
            let mut budget = Budget::of(tokens, self.net.edges());
            if round == 0 {
                self.shorten(alloc, &mut budget)?;
            }
            self.refute(alloc, &mut budget)?;
            if round > 0 && !self.is_closed() {
                self.shorten(alloc, &mut budget)?;
            }
            if self.is_closed() || tokens >= nodes {
                break;
            }
            tokens = next_round(tokens, nodes);
        }
        Ok(())
    }

    /// Looks for fewer paths: in a flow by routing at the width, sweeps and neighbourhoods, within ranges by descents.
    fn shorten(&mut self, alloc: Global, budget: &mut Budget) -> Result<(), AllocError> {
        if self.flow.is_none() {
            return self.descend(alloc, budget);
        }
        self.route(alloc, budget)?;
        if self.is_closed() {
            return Ok(());
        }
        if self.problem.rules.len() == 0 {
            self.find(alloc, FIRST_ANSWERS, budget)
        } else if self.is_known {
            self.find(alloc, LUCKY_ANSWERS, budget)
        } else {
            Ok(())
        }
    }

    /// One path for each edge of the antichain, if there is such an answer.
    fn route(&mut self, alloc: Global, budget: &mut Budget) -> Result<(), AllocError> {
        let Some(flow) = &self.flow else {
            return Ok(());
        };
        let amounts = Amounts::copy_of(alloc, flow.as_slice())?;
        let mut purse = budget.lend_for_routing();
        let routed = route(
            alloc,
            self.ground.view(),
            &amounts,
            self.antichain,
            &mut purse,
        )?;
        budget.settle(&purse);
        if let Routed::Found(answer) = routed {
            if self.problem.rules.covered(&answer) {
                self.improve(answer);
            }
        }
        Ok(())
    }

    /// Goes on with sweeps and neighbourhoods. Where there are constraints an answer counts only where it happens to cover them.
    fn find(&mut self, alloc: Global, units: u64, budget: &mut Budget) -> Result<(), AllocError> {
        let mut purse = budget.lend(units);
        let found = self.find_with(alloc, &mut purse)?;
        budget.settle(&purse);
        if let Some(answer) = found {
            if self.problem.rules.covered(&answer) {
                self.improve(answer);
            }
        }
        Ok(())
    }

    /// A shorter answer than is known, if the finder comes to one.
    fn find_with(
        &mut self,
        alloc: Global,
        purse: &mut Purse,
    ) -> Result<Option<Answer>, AllocError> {
        let mut finder = match self.finder.take() {
            Some(finder) => finder,
            None => match &self.flow {
                Some(flow) => Finder::prepare(alloc, self.net, flow.as_slice(), purse)?,
                None => return Ok(None),
            },
        };
        finder.find(self.lower, purse);
        let is_shorter = finder.paths().is_some_and(|paths| paths < self.upper);
        let found = if is_shorter {
            Some(finder.answer(alloc)?)
        } else {
            None
        };
        self.finder = Some(finder);
        Ok(found)
    }

    /// Descents to an answer within the ranges, of more and more paths.
    fn descend(&mut self, alloc: Global, budget: &mut Budget) -> Result<(), AllocError> {
        let how = Rounds {
            rounds: ROUNDS,
            seed: 1,
            zero: true,
        };
        let most = self.upper.saturating_sub(1);
        let mut share = budget.part(DESCENTS);
        let mut descent = Descent::prepare(alloc, self.ground.view(), self.problem, most)?;
        for paths in self.lower.max(1)..self.upper {
            let mut purse = share.lend(DESCENT);
            let found = descent.descend(paths, how, &mut purse);
            share.settle(&purse);
            if found.is_some() {
                self.improve(descent.answer(alloc)?);
                break;
            }
            if share.is_spent() {
                break;
            }
        }
        budget.settle_part(&share);
        Ok(())
    }

    /// Looks for refutations: of more and more paths from the lower bound on, then of one path fewer than are known.
    fn refute(&mut self, alloc: Global, budget: &mut Budget) -> Result<(), AllocError> {
        let spent = self.climb(alloc, budget)?;
        if self.flow.is_some() && self.problem.rules.len() == 0 && !self.is_closed() {
            self.find(alloc, MORE_ANSWERS, budget)?;
        }
        for _ in 0..MOST_SLOTS {
            let slots = self.upper.saturating_sub(1);
            if self.is_closed() || slots == spent || slots > MOST_SLOTS {
                break;
            }
            if !self.decide(alloc, slots, &[Profile::Steps], budget)? {
                break;
            }
        }
        Ok(())
    }

    /// Refutes more and more paths, until there is an answer or the search is spent. The number of paths at which it was spent.
    fn climb(&mut self, alloc: Global, budget: &mut Budget) -> Result<u32, AllocError> {
        let most = self.upper.min(MOST_SLOTS.saturating_add(1));
        for slots in self.lower..most {
            if self.is_closed() {
                break;
            }
            if !self.decide(alloc, slots, &[Profile::Steps, Profile::Quarters], budget)? {
                return Ok(slots);
            }
        }
        Ok(MOST_SLOTS.saturating_add(1))
    }

    /// Decides whether there are so many paths; false where the search was spent.
    fn decide(
        &mut self,
        alloc: Global,
        slots: u32,
        profiles: &[Profile],
        budget: &mut Budget,
    ) -> Result<bool, AllocError> {
        let decision = Decision {
            slots,
            limit: Some(0),
        };
        match decide(alloc, self.ground, self.problem, decision, profiles, budget)? {
            Decided::Refuted(tree) => self.raise(tree),
            Decided::Found(answer) => self.improve(answer),
            Decided::Spent => return Ok(false),
        }
        Ok(true)
    }
}
