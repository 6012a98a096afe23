//! The flow of any net as one with one source and one sink: an edge more to each source, and one from each sink.

use search_rooms::{FlowNet, NONE, Names, Pile, View};
use std::alloc::{AllocError, Global};

/// The net of all edges with a flow, and for each of its edges the one that it stands for, or none.
#[derive(Drop)]
pub struct Whole {
    pub net: FlowNet,
    pub stands: Pile<u32>,
}

fn sum_of(flow: &[u64], edges: &[u32]) -> u64 {
    let mut sum = 0u64;
    for &e in edges {
        sum = sum.saturating_add(flow.get(e as usize).copied().unwrap_or(0));
    }
    sum
}

/// For each vertex its number in the whole net.
fn numbers_of(alloc: Global, view: &View) -> Result<Names, AllocError> {
    let mut numbers = Names::nones(alloc, view.vertices())?;
    for place in 0..view.vertices() {
        numbers.put(view.vertex_at(place), place.saturating_add(1));
    }
    Ok(numbers)
}

impl Whole {
    /// The whole net of a flow.
    pub fn of(alloc: Global, view: &View, flow: &[u64]) -> Result<Whole, AllocError> {
        let vertices = view.vertices().saturating_add(2);
        let edges = view.edges().saturating_mul(3);
        let numbers = numbers_of(alloc, view)?;
        let mut whole = Whole {
            net: FlowNet::with_room(alloc, vertices, edges)?,
            stands: Pile::with_room(alloc, edges as usize)?,
        };
        whole.net.clear(vertices);
        for e in 0..view.edges() {
            let units = flow.get(e as usize).copied().unwrap_or(0);
            whole.add(numbers.at(view.tail(e)), numbers.at(view.head(e)), units, e);
        }
        for v in 0..view.vertices() {
            whole.join_ends(view, flow, v, numbers.at(v));
        }
        whole.net.list_edges();
        Ok(whole)
    }

    /// Adds an edge, where it has a flow.
    fn add(&mut self, tail: u32, head: u32, flow: u64, stands: u32) {
        if flow > 0 {
            self.net.add(tail, head, flow);
            self.stands.push(stands);
        }
    }

    /// Adds the edge to a source, or from a sink.
    fn join_ends(&mut self, view: &View, flow: &[u64], v: u32, number: u32) {
        let given = sum_of(flow, view.out(v));
        let taken = sum_of(flow, view.into(v));
        let sink = self.net.sink();
        if view.is_source(v) && given > 0 {
            self.add(0, number, given, NONE);
        } else if view.is_sink(v) {
            self.add(number, sink, taken, NONE);
        }
    }
}
