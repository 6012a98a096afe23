//! The search for an answer to a decision, which leaves a refutation where there is none.
#![tactic(auto)]

pub use search::{Outcome, Search};

mod rule;
mod search;
