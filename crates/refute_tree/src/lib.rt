//! Boxes and tokens: the list of boxes of a decision, to which tokens are applied.
#![tactic(auto)]

pub use decomposition::{Decision, Token};
pub use front::{Front, Sums};

mod answer;
mod beside;
mod choice;
mod closing;
mod ends;
mod front;
mod misses;
mod next;
mod one_box;
mod replacing;
mod sums;
