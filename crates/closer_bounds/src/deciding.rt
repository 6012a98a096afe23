//! One decision by the engine.

use crate::budget::Budget;
use crate::closer::Tree;
use dag_net::Answer;
use decomposition::Decision;
use flow_models::Problem;
use std::alloc::{AllocError, Global};
use tree_search::{Ending, Engine, Ground, Profile};

/// So many units one decision may cost with one profile.
const DECISION: u64 = 48;

/// What a decision comes to.
#[derive(Drop)]
pub enum Decided {
    Found(Answer),
    Refuted(Tree),
    Spent,
}

/// Tries the profiles in turn.
pub fn decide(
    alloc: Global,
    ground: &Ground,
    problem: &Problem,
    decision: Decision,
    profiles: &[Profile],
    budget: &mut Budget,
) -> Result<Decided, AllocError> {
    let slots = decision.slots;
    let mut engine = Engine::prepare(
        alloc,
        ground,
        problem,
        slots,
        decision.limit,
        budget.tokens(),
    )?;
    for &profile in profiles {
        let mut purse = budget.lend(DECISION);
        let ending = engine.run(profile, &mut purse);
        budget.settle(&purse);
        match ending {
            Ending::Found => return Ok(Decided::Found(engine.answer(alloc)?)),
            Ending::Refuted => {
                let tree = Tree::of(alloc, decision, engine.tokens())?;
                return Ok(Decided::Refuted(tree));
            }
            Ending::Spent => {}
        }
    }
    Ok(Decided::Spent)
}
