//! The runs that an answer must contain, and whether it does.
#![tactic(auto)]

pub use rules::{RuleFault, Rules};
pub use standing::{is_covered, stands_in};

mod follows;
pub mod laws;
mod listed;
mod rules;
mod standing;
