//! A net with one source, vertex 0, and one sink, the last vertex; its vertices are numbered along the order, and each edge has a flow.
//!
//! The flow of any net is brought to this form with one edge to each source and one from each sink; the sum of some paths is, too.

use crate::lists::Names;
use crate::pile::Pile;
use std::alloc::{AllocError, Global};

/// The edges by the vertex at one of their ends, side by side in rising order, and where those of each vertex begin.
#[derive(Drop)]
struct Side {
    begins: Names,
    list: Names,
}

impl Side {
    fn with_room(alloc: Global, vertices: u32, edges: u32) -> Result<Side, AllocError> {
        Ok(Side {
            begins: Names::nones(alloc, vertices.saturating_add(2))?,
            list: Names::nones(alloc, edges)?,
        })
    }

    #[inline(always)]
    fn of(&self, v: u32) -> &[u32] {
        self.list
            .part(self.begins.at(v), self.begins.at(v.saturating_add(1)))
    }

    /// Counts the edges of each vertex, two places further on, and sums the counts up.
    fn count(&mut self, vertices: u32, ends: &[u32]) {
        let places = vertices.saturating_add(2);
        self.begins.fill_first(places, 0);
        for &v in ends {
            let place = v.saturating_add(2);
            let count = self.begins.at(place).saturating_add(1);
            self.begins.put(place, count);
        }
        let mut sum = 0u32;
        for v in 0..places {
            sum = sum.saturating_add(self.begins.at(v));
            self.begins.put(v, sum);
        }
    }

    /// Lists all edges by their ends.
    fn sort(&mut self, vertices: u32, ends: &[u32]) {
        self.count(vertices, ends);
        let mut e = 0u32;
        for &v in ends {
            let next = v.saturating_add(1);
            let place = self.begins.at(next);
            self.list.put(place, e);
            self.begins.put(next, place.saturating_add(1));
            e = e.saturating_add(1);
        }
    }
}

/// A net in a room that is asked for once.
#[derive(Drop)]
pub struct FlowNet {
    vertices: u32,
    tails: Pile<u32>,
    heads: Pile<u32>,
    flow: Pile<u64>,
    leaving: Side,
    entering: Side,
}

impl FlowNet {
    /// Room for so many vertices and edges.
    pub fn with_room(alloc: Global, vertices: u32, edges: u32) -> Result<FlowNet, AllocError> {
        Ok(FlowNet {
            vertices: 0,
            tails: Pile::with_room(alloc, edges as usize)?,
            heads: Pile::with_room(alloc, edges as usize)?,
            flow: Pile::with_room(alloc, edges as usize)?,
            leaving: Side::with_room(alloc, vertices, edges)?,
            entering: Side::with_room(alloc, vertices, edges)?,
        })
    }

    /// A net of so many vertices without edges.
    pub fn clear(&mut self, vertices: u32) {
        self.vertices = vertices;
        self.tails.clear();
        self.heads.clear();
        self.flow.clear();
    }

    /// Adds an edge.
    pub fn add(&mut self, tail: u32, head: u32, flow: u64) {
        self.tails.push(tail);
        self.heads.push(head);
        self.flow.push(flow);
    }

    /// Lists the edges at each vertex, once all are there.
    pub fn list_edges(&mut self) {
        self.leaving.sort(self.vertices, self.tails.as_slice());
        self.entering.sort(self.vertices, self.heads.as_slice());
    }

    /// The number of vertices.
    pub fn vertices(&self) -> u32 {
        self.vertices
    }

    /// The number of edges.
    pub fn edges(&self) -> u32 {
        self.flow.count()
    }

    /// The vertex that an edge leaves.
    #[inline(always)]
    pub fn tail(&self, e: u32) -> u32 {
        self.tails.at(e)
    }

    /// The vertex that an edge enters.
    #[inline(always)]
    pub fn head(&self, e: u32) -> u32 {
        self.heads.at(e)
    }

    /// The flow of an edge.
    #[inline(always)]
    pub fn flow(&self, e: u32) -> u64 {
        self.flow.at(e)
    }

    /// The flow of each edge.
    pub fn flows(&self) -> &[u64] {
        self.flow.as_slice()
    }

    /// The last vertex.
    #[inline(always)]
    pub fn sink(&self) -> u32 {
        self.vertices.saturating_sub(1)
    }

    /// The edges that leave a vertex, rising.
    #[inline(always)]
    pub fn out(&self, v: u32) -> &[u32] {
        self.leaving.of(v)
    }

    /// The edges that enter a vertex, rising.
    #[inline(always)]
    pub fn into(&self, v: u32) -> &[u32] {
        self.entering.of(v)
    }

    /// Writes the edges that cross the order in front of a vertex. Any such cut may start a sweep.
    pub fn cut_before(&self, v: u32, cut: &mut Pile<u32>) {
        cut.clear();
        for e in 0..self.edges() {
            if self.tail(e) < v && self.head(e) >= v {
                cut.push(e);
            }
        }
    }

    /// The number of edges of a longest path.
    pub fn longest(&self, alloc: Global) -> Result<u32, AllocError> {
        let mut lengths = Names::nones(alloc, self.vertices)?;
        lengths.fill_first(self.vertices, 0);
        let mut longest = 0u32;
        for v in 0..self.vertices {
            let length = lengths.at(v).saturating_add(1);
            for &e in self.out(v) {
                let head = self.head(e);
                lengths.put(head, lengths.at(head).max(length));
                longest = longest.max(length);
            }
        }
        Ok(longest)
    }
}
