//! What a search for closer bounds comes to.

use dag_net::Answer;
use decomposition::{Decision, Token};
use std::alloc::{AllocError, Global};

/// Tokens that are to refute a decision.
#[derive(Debug, Drop)]
pub struct Tree {
    pub decision: Decision,
    pub tokens: Vec<Token>,
}

impl Tree {
    /// A decision, and a copy of the tokens.
    pub fn of(alloc: Global, decision: Decision, tokens: &[Token]) -> Result<Tree, AllocError> {
        let mut copy = Vec::with_capacity(alloc, tokens.len())?;
        for &token in tokens {
            copy.push(token)?;
        }
        Ok(Tree {
            decision,
            tokens: copy,
        })
    }
}

/// A better answer than the one that was known, and a refutation that shows a greater lower bound, where they were found.
#[derive(Debug, Drop)]
pub struct Closer {
    pub answer: Option<Answer>,
    pub tree: Option<Tree>,
}
