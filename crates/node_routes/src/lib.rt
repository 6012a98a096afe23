//! Routes of a graph with weights on its vertices, as paths of the graph that has an edge for each vertex.
#![tactic(auto)]

pub use route::route_of;

pub mod laws;
mod route;
