//! Trials of the programs, over inputs and outputs in memory, and a law on two of them.
#![tactic(auto)]

mod answered;
#[cfg(test)]
mod checks;
#[cfg(test)]
mod faults;
#[cfg(test)]
mod free;
#[cfg(test)]
mod generated;
#[cfg(test)]
mod large;
#[cfg(test)]
mod least;
#[cfg(test)]
mod near;
#[cfg(test)]
mod refused;
#[cfg(test)]
mod rows;
mod runs;
mod sure;
#[cfg(test)]
mod words;

pub use answered::outputs_are_answered_yes;
pub use runs::{Ran, run, run_on};
pub use sure::{flowcheck_surely, flowpaths_surely};
