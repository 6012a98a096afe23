//! The net, and for each vertex the set of the edges that a walk may still take which ends there. Made once, for all decisions.
//!
//! As these are sets of bits, the edges that a step loses are those of one set that are not in the other.

use crate::sets::EdgeSets;
use dag_net::Net;
use search_rooms::{Names, View};
use std::alloc::{AllocError, Global};

/// A net, and the edges ahead of each vertex.
#[derive(Drop)]
pub struct Ground<'a> {
    view: View<'a>,
    /// One set for each vertex, and last the set of all edges, for the empty walk.
    ahead: EdgeSets,
    counts: Names,
}

/// Marks the edges ahead of each vertex, the last one of the order first: those that leave it, and those ahead of their heads.
fn fill(view: &View, ahead: &mut EdgeSets) {
    for place in (0..view.vertices()).rev() {
        let v = view.vertex_at(place);
        for &e in view.out(v) {
            ahead.put(v, e);
            ahead.add_all(v, view.head(e));
        }
    }
    for e in 0..view.edges() {
        ahead.put(view.vertices(), e);
    }
}

impl<'a> Ground<'a> {
    /// The net with the edges ahead of each of its vertices.
    pub fn of(alloc: Global, net: &'a Net) -> Result<Ground<'a>, AllocError> {
        let view = View::of(alloc, net)?;
        let sets = view.vertices().saturating_add(1);
        let mut ahead = EdgeSets::empty(alloc, sets, view.edges())?;
        fill(&view, &mut ahead);
        let mut counts = Names::nones(alloc, sets)?;
        for set in 0..sets {
            counts.put(set, ahead.count(set));
        }
        Ok(Ground {
            view,
            ahead,
            counts,
        })
    }

    /// The net.
    pub fn view(&self) -> &View<'a> {
        &self.view
    }

    /// The edges that a walk may still take which ends at the vertex, or all where it is none.
    pub fn ahead(&self, end: u32) -> &[u64] {
        self.ahead.words(end.min(self.view.vertices()))
    }

    /// How many edges that are.
    pub fn count_ahead(&self, end: u32) -> u32 {
        self.counts.at(end.min(self.view.vertices()))
    }
}
