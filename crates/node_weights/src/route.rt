//! Routes of node graphs.
ghost use Rattle.std.specs.Prelude.{◌≡◌, length, IfOk};
ghost use Rattle.node_routes.specs.Split.{route_in};

use crate::graph::NodeGraph;
use dag_net::Ids;
use std::alloc::{AllocError, Global};

/// The vertices of a path of the split graph, in order, in time linear in the path.
pub fn route_of(alloc: Global, graph: &NodeGraph, path: &[u32]) -> Result<Ids, AllocError>
    ensures { IfOk result (λ route. route ≡ route_in (length graph.now.names) path.now) }
{
    node_routes::route_of(alloc, graph.len(), path)
}
