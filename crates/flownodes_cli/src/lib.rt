//! The program `flownodes`: words, the reading of a graph with weights on its vertices, and fewest routes with the report that proves them.
#![tactic(auto)]

mod answering;
mod call;
mod lines;
mod routing;
mod telling;
mod words;

pub use call::flownodes;
pub use telling::tell;
