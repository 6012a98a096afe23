//! The program `flownear`: words, the reading of an input, and for each of its blocks the nearest balanced flow with levels that prove it.
#![tactic(auto)]

mod answers;
mod call;
mod lines;
mod nearing;
mod telling;

pub use answers::block_text;
pub use call::flownear;
pub use telling::tell;
