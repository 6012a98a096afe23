//! The solver: a first answer, and searches for better ones, for each model.
#![tactic(auto)]

mod asked;
mod bounds;
mod carried;
mod checked;
mod closer;
mod counted;
mod counting;
mod crowds;
mod exact;
mod interval;
mod least_error;
mod narrowing;
mod room;
mod searching;
mod solving;
mod thin;
mod widened;

pub use asked::Asked;
pub use solving::solve;
