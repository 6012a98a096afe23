//! The edge of greatest number into each vertex, and the one out of it, of those as great the first.

ghost use Rattle.std.specs.Prelude.{◌≡◌, ◌<◌, length, slice_index, IfOk, IfSome};
ghost use Rattle.decomposition.specs.Graph.{edge_count, IsNet};
ghost use Rattle.greedy_paths.specs.Greatest.{IsGreater, AreGreatest};

use dag_net::Net;
use std::alloc::{AllocError, Global};

/// For each vertex the edge of greatest number into it, and the one out of it, of those as great the first.
#[derive(Drop)]
pub struct GreatestEdges {
    pub into: Vec<Option<u32>>,
    pub out_of: Vec<Option<u32>>,
}

/// Of an edge that was found and a later one, the one of greater number, the first where they are equal.
fn greater(guide: &[u64], found: Option<u32>, e: u32) -> u32
    requires edge { e < length guide.now }
    requires found { IfSome found (λ d. d < length guide.now) }
    ensures { IsGreater (slice_index guide.now) found e result }
{
    match found {
        Some(d) if guide[e as usize] <= guide[d as usize] => d,
        _ => e,
    }
}

/// Goes over the edges, and keeps the greatest one at each end.
pub fn greatest_edges(alloc: Global, net: &Net, guide: &[u64]) -> Result<GreatestEdges, AllocError>
    requires { length guide.now ≡ edge_count net.now }
    ensures greatest { IfOk result (AreGreatest net.now (slice_index guide.now)) }
    ensures net { IfOk result (λ _. IsNet net.now) }
{
    let mut into = vec![in alloc; None; net.vertices() as usize]?;
    let mut out_of = vec![in alloc; None; net.vertices() as usize]?;
    for e in 0..net.edges() {
        let head = net.head(e) as usize;
        let tail = net.tail(e) as usize;
        into[head] = Some(greater(guide, into[head], e));
        out_of[tail] = Some(greater(guide, out_of[tail], e));
    }
    Ok(GreatestEdges { into, out_of })
}
