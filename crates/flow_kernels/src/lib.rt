//! What answers of few paths start from: the kernel of a flow with one source and one sink, by contraction, and a widest cut of it.
//!
//! Trusted for nothing but being safe and coming to an end: what comes out is checked before it counts. All room is asked for
//! once, and all work is counted.
#![tactic(auto)]

pub use contraction::Contraction;
pub use cuts::Cover;
pub use kernel::Kernel;

mod chains;
mod contraction;
mod cuts;
mod kernel;
mod whole;
