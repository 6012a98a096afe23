//! Flows within ranges, or the cuts that show that there are none.
#![tactic(auto)]

pub use bounded::{bounded_flow, bounded_flow_near, wide_flow, wide_flow_near};
pub use found::FlowOrCut;

mod bounded;
mod clearing;
mod ends;
mod found;
mod search;
mod sums;
