//! The generated text: graphs made from the draws of a seed.
#![tactic(auto)]

mod accepted;
mod block;
mod draws;
mod edge;
mod edges;
mod examples;
mod generator;
mod path;
mod vertex;

pub use accepted::blocks_are_accepted;
pub use examples::first_block_of_seed_1;
pub use generator::demo;
