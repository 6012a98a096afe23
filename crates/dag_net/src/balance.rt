//! Whether as much enters each inner vertex as leaves it.

ghost use Rattle.std.specs.Prelude.{◌≡◌, ◌<◌, ◌≤◌, length, slice_index, IfOk, IfNone, IfSome, All};
ghost use Rattle.decomposition.specs.Graph.{edge_count, is_inner};
ghost use Rattle.decomposition.specs.Flow.{IsBalanced, IsFirstUnbalanced};
ghost use Rattle.dag_net.specs.Balance.{AreSums};

use crate::net::Net;
use std::alloc::{AllocError, Global};

/// For each vertex, the flow of the edges that enter it, and of those that leave it.
#[derive(Drop)]
struct Sums {
    into: Vec<u64>,
    out: Vec<u64>,
}

/// Sums up the flow at the ends of each edge.
fn sum_flow(alloc: Global, net: &Net, flow: &[u64]) -> Result<Sums, AllocError>
    requires count { length flow.now ≡ edge_count net.now }
    requires small { All (λ units. units ≤ 1000000000000) flow.now }
    ensures { IfOk result (λ sums. AreSums net.now (slice_index flow.now) sums.into.items sums.out.items) }
{
    let mut into = vec![in alloc; 0; net.vertices() as usize]?;
    let mut out = vec![in alloc; 0; net.vertices() as usize]?;
    for e in 0..net.edges() {
        let units = flow[e as usize];
        into[net.head(e) as usize] += units;
        out[net.tail(e) as usize] += units;
    }
    Ok(Sums { into, out })
}

/// Whether edges enter the vertex and edges leave it.
fn is_inner(net: &Net, v: u32) -> bool
    requires { v < net.now.vertices }
    ensures { result ≡ is_inner net.now v }
{
    !net.is_source(v) && !net.is_sink(v)
}

impl Net {
    /// The first inner vertex that more or less flow enters than leaves.
    pub fn first_unbalanced(&self, alloc: Global, flow: &[u64]) -> Result<Option<u32>, AllocError>
        requires count { length flow.now ≡ edge_count self.now }
        requires small { All (λ units. units ≤ 1000000000000) flow.now }
        ensures balanced { IfOk result (λ found. IfNone found (IsBalanced self.now (slice_index flow.now))) }
        ensures unbalanced { IfOk result (λ found. IfSome found (IsFirstUnbalanced self.now (slice_index flow.now))) }
        ensures vertex { IfOk result (λ found. IfSome found (λ v. v < self.now.vertices)) }
    {
        let sums = sum_flow(alloc, self, flow)?;
        for v in 0..self.vertices() {
            if is_inner(self, v) && sums.into[v as usize] != sums.out[v as usize] {
                return Ok(Some(v));
            }
        }
        Ok(None)
    }
}
