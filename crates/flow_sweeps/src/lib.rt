//! Sweeps: answers of few paths by routing with cuts, from any cut of a net with one source and one sink.
//!
//! Trusted for nothing but being safe and coming to an end: what comes out is checked before it counts. All room is asked for
//! once, and all work is counted.
#![tactic(auto)]

pub use means::Means;
pub use rooms::Rooms;
pub use sweep::{How, Sweep};
pub use votes::Votes;

mod exact_shares;
mod halves;
mod loads;
mod means;
mod pieces;
mod rooms;
mod shares;
mod sweep;
mod votes;
