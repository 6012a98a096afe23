//! A search for short refutations: it may take any legal token at a box, and takes those that did not matter out of the finished tree.
//! It is trusted for nothing: what it gives counts only after it was checked.
#![tactic(auto)]

pub use choosing::Profile;
pub use engine::{Ending, Engine};
pub use ground::Ground;

mod boxes;
mod choosing;
mod engine;
mod frames;
mod ground;
mod loads;
mod sets;
mod tape;
mod walks;
