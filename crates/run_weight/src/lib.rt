//! The least weight that the decompositions of a flow put on a run.
#![tactic(auto)]

pub use lightening::{lighten, lightest};
pub use loads::{least_load, load};

mod exits;
mod lightening;
mod loads;
mod sorting;
