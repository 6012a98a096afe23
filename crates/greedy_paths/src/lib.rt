//! First answers: decompositions of a flow into weighted paths.
#![tactic(auto)]

pub use booking::book;
pub use greedy::{GreedyFault, decompose, decompose_over, decompose_with};
pub use units::{add_along, units_on};
pub use widest::widest_path;

mod booking;
mod greatest;
mod greedy;
pub mod laws;
mod units;
mod widest;
mod widths;
