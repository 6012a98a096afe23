//! The edges at each vertex in chains, so that one can be taken out or put in at once.

use search_rooms::{NONE, Names};
use std::alloc::{AllocError, Global};

/// For each vertex a chain of edges, the latest one first.
#[derive(Drop)]
pub struct Chains {
    firsts: Names,
    counts: Names,
    next: Names,
    before: Names,
}

impl Chains {
    /// Room for so many vertices and edges.
    pub fn with_room(alloc: Global, vertices: u32, edges: u32) -> Result<Chains, AllocError> {
        Ok(Chains {
            firsts: Names::nones(alloc, vertices)?,
            counts: Names::nones(alloc, vertices)?,
            next: Names::nones(alloc, edges)?,
            before: Names::nones(alloc, edges)?,
        })
    }

    /// Empty chains for so many vertices.
    pub fn clear(&mut self, vertices: u32) {
        self.firsts.fill_first(vertices, NONE);
        self.counts.fill_first(vertices, 0);
    }

    /// The first edge of a chain, or none.
    pub fn first(&self, v: u32) -> u32 {
        self.firsts.at(v)
    }

    /// How many edges the chain of a vertex has.
    pub fn count(&self, v: u32) -> u32 {
        self.counts.at(v)
    }

    /// Puts an edge in front.
    pub fn put_in(&mut self, v: u32, e: u32) {
        let old = self.firsts.at(v);
        self.next.put(e, old);
        self.before.put(e, NONE);
        self.before.put(old, e);
        self.firsts.put(v, e);
        let count = self.counts.at(v).saturating_add(1);
        self.counts.put(v, count);
    }

    /// Takes an edge out.
    pub fn take_out(&mut self, v: u32, e: u32) {
        let before = self.before.at(e);
        let next = self.next.at(e);
        if before == NONE {
            self.firsts.put(v, next);
        } else {
            self.next.put(before, next);
        }
        self.before.put(next, before);
        let count = self.counts.at(v).saturating_sub(1);
        self.counts.put(v, count);
    }
}
