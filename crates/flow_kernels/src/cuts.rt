//! A widest antichain of a net with one source and one sink: paths that cover each edge, as few as can be, and a cut that shows it.

use search_rooms::{FlowNet, NONE, Names, Pile, Purse};
use std::alloc::{AllocError, Global};

/// How a vertex was reached: not at all, as the source, forward over an edge, or backward.
#[derive(Clone, Copy)]
enum Reached {
    Not,
    Source,
    Forward(u32),
    Backward(u32),
}

/// A cover of the edges by paths.
#[derive(Drop)]
pub struct Cover {
    /// The number of paths on each edge.
    paths: Names,
    reached: Pile<Reached>,
    queue: Pile<u32>,
}

impl Cover {
    /// Room for nets of so many vertices and edges.
    pub fn with_room(alloc: Global, vertices: u32, edges: u32) -> Result<Cover, AllocError> {
        Ok(Cover {
            paths: Names::nones(alloc, edges)?,
            reached: Pile::with_room(alloc, vertices as usize)?,
            queue: Pile::with_room(alloc, vertices as usize)?,
        })
    }

    /// Writes the antichain.
    pub fn widest_cut(&mut self, net: &FlowNet, cut: &mut Pile<u32>, purse: &mut Purse) {
        self.paths.fill_first(net.edges(), 0);
        for e in 0..net.edges() {
            if self.paths.at(e) == 0 {
                let length = self.cover(net, e);
                purse.spend(u64::from(length));
            }
        }
        for _ in 0..net.edges().saturating_add(1) {
            self.search(net, purse);
            if !self.is_reached(net.sink()) {
                break;
            }
            self.lessen(net);
        }
        cut.clear();
        for e in 0..net.edges() {
            if self.is_reached(net.tail(e)) && !self.is_reached(net.head(e)) {
                cut.push(e);
            }
        }
    }

    fn is_reached(&self, v: u32) -> bool {
        match self.reached.get(v as usize) {
            None | Some(Reached::Not) => false,
            _ => true,
        }
    }

    fn add(&mut self, e: u32) {
        let paths = self.paths.at(e).saturating_add(1);
        self.paths.put(e, paths);
    }

    /// The first edge of a list without a path, else the first edge.
    fn bare(&self, edges: &[u32]) -> u32 {
        for &e in edges {
            if self.paths.at(e) == 0 {
                return e;
            }
        }
        edges.first().copied().unwrap_or(NONE)
    }

    /// One path more, through an edge. Its length.
    fn cover(&mut self, net: &FlowNet, through: u32) -> u32 {
        self.add(through);
        let back = self.cover_back(net, net.tail(through));
        let on = self.cover_on(net, net.head(through));
        back.saturating_add(on).saturating_add(1)
    }

    /// The path goes back from a vertex to the source. How many edges it takes.
    fn cover_back(&mut self, net: &FlowNet, from: u32) -> u32 {
        let mut v = from;
        for length in 0..net.vertices() {
            if v == 0 {
                return length;
            }
            let e = self.bare(net.into(v));
            self.add(e);
            v = net.tail(e);
        }
        net.vertices()
    }

    /// The path goes on from a vertex to the sink. How many edges it takes.
    fn cover_on(&mut self, net: &FlowNet, from: u32) -> u32 {
        let mut v = from;
        for length in 0..net.vertices() {
            if v == net.sink() {
                return length;
            }
            let e = self.bare(net.out(v));
            self.add(e);
            v = net.head(e);
        }
        net.vertices()
    }

    /// What is reached from the source, forward over edges with two paths or more and backward over any, until the sink is.
    fn search(&mut self, net: &FlowNet, purse: &mut Purse) {
        self.reached.clear();
        for _ in 0..net.vertices() {
            self.reached.push(Reached::Not);
        }
        self.queue.clear();
        self.reach(0, Reached::Source);
        for i in 0..net.vertices() {
            if i >= self.queue.count() || self.is_reached(net.sink()) {
                break;
            }
            let v = self.queue.at(i);
            self.reach_from(net, v);
            purse.spend(net.out(v).len() as u64);
            purse.spend(net.into(v).len() as u64);
        }
    }

    fn reach_from(&mut self, net: &FlowNet, v: u32) {
        for &e in net.out(v) {
            if self.paths.at(e) > 1 {
                self.reach(net.head(e), Reached::Forward(e));
            }
        }
        for &e in net.into(v) {
            self.reach(net.tail(e), Reached::Backward(e));
        }
    }

    fn reach(&mut self, v: u32, how: Reached) {
        if !self.is_reached(v) {
            self.reached.put(v, how);
            self.queue.push(v);
        }
    }

    /// One path less, along the way to the sink.
    fn lessen(&mut self, net: &FlowNet) {
        let mut v = net.sink();
        for _ in 0..net.vertices() {
            match self.reached.get(v as usize) {
                Some(Reached::Forward(e)) => {
                    let paths = self.paths.at(e).saturating_sub(1);
                    self.paths.put(e, paths);
                    v = net.tail(e);
                }
                Some(Reached::Backward(e)) => {
                    self.add(e);
                    v = net.head(e);
                }
                _ => break,
            }
        }
    }
}
