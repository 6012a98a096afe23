//! Problems of flow decomposition, and how good an answer is.
#![tactic(auto)]

pub use decomposition::{Decision, Mode};
pub use measures::{error_of, meets, objective};
pub use problem::Problem;

mod measures;
mod problem;
mod weights;
