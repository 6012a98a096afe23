//! The program `flowruns`: words, the reading of an input, and for each run that its blocks ask for the least load over all decompositions.
#![tactic(auto)]

mod answers;
mod call;
mod lines;
mod telling;
mod weighing;

pub use answers::block_text;
pub use call::flowruns;
pub use telling::tell;
