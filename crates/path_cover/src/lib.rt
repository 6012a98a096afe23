//! Path covers of needed edges, and antichains as large as they are.
#![tactic(auto)]

pub use covers::width;
pub use found::Width;

mod carrying;
mod covers;
mod found;
mod lessening;
mod search;
mod splitting;
mod ways;
