//! The reader of graph texts: blocks of a stream of bytes, in whatever pieces they come.
#![tactic(auto)]

mod accepted;
mod block;
mod constraints;
mod cutter;
mod draft;
mod draft_graph;
mod edge_line;
mod examples;
pub mod fields;
mod labels;
mod laws;
mod open_line;
mod reader;

pub use accepted::{blocks_have_whole_lines, graphs_are_accepted};
pub use block::{Block, RawGraph};
pub use examples::{
    blocks_are_cut, blocks_are_read, constraints_are_read, limits_are_kept, lines_are_cut,
};
pub use labels::Labels;
pub use laws::{blocks_of_texts, complete_blocks_stay, refusals_name_lines};
pub use reader::BlockReader;
pub use report_terms::{Refusal, Why};
