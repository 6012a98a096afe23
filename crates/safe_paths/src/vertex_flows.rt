//! What each vertex tells of its edges: the flow out of it, and the greatest flow of an edge at it.

ghost use Rattle.std.specs.Prelude.{◌≡◌, ◌≤◌, length, slice_index, All, IfOk};
ghost use Rattle.decomposition.specs.Graph.{edge_count};
ghost use Rattle.safe_paths.specs.VertexFlows.{AreFlows};

use dag_net::Net;
use std::alloc::{AllocError, Global};

/// For each vertex, the flow out of it, and the greatest flow of an edge into it and of one out of it.
#[derive(Drop)]
pub struct VertexFlows {
    pub out: Vec<u64>,
    pub greatest_in: Vec<u64>,
    pub greatest_out: Vec<u64>,
}

/// Sums up and compares the flow at the ends of each edge.
pub fn flows_at(alloc: Global, net: &Net, flow: &[u64]) -> Result<VertexFlows, AllocError>
    requires one_each { length flow.now ≡ edge_count net.now }
    requires small { All (λ w. w ≤ 1000000000000) flow.now }
    ensures { IfOk result (AreFlows net.now (slice_index flow.now)) }
{
    let mut out = vec![in alloc; 0; net.vertices() as usize]?;
    let mut greatest_in = vec![in alloc; 0; net.vertices() as usize]?;
    let mut greatest_out = vec![in alloc; 0; net.vertices() as usize]?;
    for e in 0..net.edges() {
        let units = flow[e as usize];
        let tail = net.tail(e) as usize;
        let head = net.head(e) as usize;
        out[tail] += units;
        greatest_in[head] = units.max(greatest_in[head]);
        greatest_out[tail] = units.max(greatest_out[tail]);
    }
    Ok(VertexFlows {
        out,
        greatest_in,
        greatest_out,
    })
}
