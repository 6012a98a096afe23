//! Looks for answers of fewer paths in the exact model.
//!
//! Sweeps over the kernel of the flow give a first answer. Then some of its paths are added up and decomposed anew, again and
//! again; where the flow is dense, also by paths that are taken off one after another.
//! Trusted for nothing but being safe and coming to an end: what comes out is checked before it counts.
#![tactic(auto)]

pub use finder::Finder;

mod choosing;
mod finder;
mod neighbours;
mod starts;
mod sums;
mod takings;
mod tastes;
mod through;
mod tools;
mod walks;
