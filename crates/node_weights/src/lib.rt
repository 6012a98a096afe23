//! The reader of node graphs: graphs with a weight on each vertex.
#![tactic(auto)]

mod draft;
mod examples;
mod graph;
pub mod laws;
mod node_fault;
mod reader;
mod route;
mod split;

pub use examples::{first_refusals_count, node_graphs_are_split, node_texts_are_read};
pub use graph::NodeGraph;
pub use node_fault::{NodeFault, NodeWhy};
pub use reader::read_nodes;
pub use route::route_of;
pub use split::split_text;
