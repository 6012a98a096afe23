//! The edges that enter each vertex.

ghost use Rattle.std.specs.Prelude.{◌≤◌, IfOk};
ghost use Rattle.dag_net.specs.Entering.{EnterFrom};
ghost use Rattle.decomposition.specs.Graph.{edge_count, IsNet};

use crate::net::Net;
use std::alloc::{AllocError, Global};

/// The incoming edges of each vertex, linked by index in rising order.
#[derive(Drop)]
pub struct Entering {
    pub first: Vec<Option<u32>>,
    pub next: Vec<Option<u32>>,
}

impl Entering {
    /// Links the edges of a net by their heads, in m + n steps.
    pub fn of(alloc: Global, net: &Net) -> Result<Entering, AllocError>
        ensures entering { IfOk result (λ entering. EnterFrom net.now 0 entering.first.items entering.next.items) }
        ensures net { IfOk result (λ _. IsNet net.now) }
        ensures vertices { IfOk result (λ _. net.now.vertices ≤ 8192) }
        ensures edges { IfOk result (λ _. edge_count net.now ≤ 4096) }
    {
        let mut first = vec![in alloc; None; net.vertices() as usize]?;
        let mut next = vec![in alloc; None; net.edges() as usize]?;
        for e in (0..net.edges()).rev() {
            let head = net.head(e) as usize;
            next[e as usize] = first[head];
            first[head] = Some(e);
        }
        Ok(Entering { first, next })
    }
}
