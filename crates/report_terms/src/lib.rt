//! What is said of a block: why it is refused, or what was found for its graph.
#![tactic(auto)]

mod refusal;
mod report;
mod tokens;

pub use decomposition::{Decision, Side, Token};
pub use refusal::{Refusal, Why};
pub use report::{Body, Cert, Mark, Report, Solved, Trail};
pub use tokens::Tokens;
