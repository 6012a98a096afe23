//! Safe runs: the runs that every decomposition of a flow keeps.
#![tactic(auto)]

pub use maximal::maximal_safe;
pub use sums::excess;

mod maximal;
mod places;
mod sums;
mod vertex_flows;
mod windows;
mod writing;
