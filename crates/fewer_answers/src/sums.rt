//! The net of the sum of some paths, and its kernel.

use crate::walks::Walks;
use flow_kernels::Contraction;
use flow_sweeps::{Means, Rooms};
use search_rooms::{Amounts, FlowNet, NONE, Names, Paths, Pile, Purse};
use std::alloc::{AllocError, Global};

/// A sum costs so many visits for each of its edges; what the contraction does is paid for with that.
const EDGE: u32 = 16;

/// A sum of paths.
#[derive(Drop)]
pub struct Sum {
    /// The sum on each edge, and the name of each vertex in it.
    flow: Amounts,
    names: Names,
    edges: Pile<u32>,
    vertices: Pile<u32>,
    net: FlowNet,
    contraction: Contraction,
    kernel: FlowNet,
}

impl Sum {
    /// Room for sums of paths of a kernel.
    pub fn with_room(alloc: Global, rooms: Rooms) -> Result<Sum, AllocError> {
        Ok(Sum {
            flow: Amounts::zeros(alloc, rooms.edges)?,
            names: Names::nones(alloc, rooms.vertices)?,
            edges: Pile::with_room(alloc, rooms.edges as usize)?,
            vertices: Pile::with_room(alloc, rooms.vertices as usize)?,
            net: FlowNet::with_room(alloc, rooms.vertices, rooms.edges)?,
            contraction: Contraction::with_room(alloc, rooms.vertices, rooms.edges)?,
            kernel: FlowNet::with_room(alloc, rooms.vertices, rooms.edges)?,
        })
    }

    /// The kernel of the sum.
    pub fn kernel(&self) -> &FlowNet {
        &self.kernel
    }

    /// The number of paths that need no search.
    pub fn direct(&self) -> u32 {
        self.contraction.direct()
    }

    /// The edge of the net that an edge of the sum stands for.
    pub fn edge(&self, e: u32) -> u32 {
        self.edges.at(e)
    }

    /// Writes the paths of the sum: those of its kernel, and the direct ones.
    pub fn lift(&mut self, answer: &Paths, lifted: &mut Paths) {
        self.contraction.lift(&self.net, answer, lifted);
    }

    /// The sum of some paths of a net, and its kernel.
    pub fn add_up(&mut self, net: &FlowNet, walks: &Walks, chosen: &[u32], means: &mut Means) {
        self.edges.clear();
        self.vertices.clear();
        for &path in chosen {
            let weight = walks.weight(path);
            for &e in walks.path(path) {
                self.add(net, e, weight);
            }
        }
        self.name_vertices();
        self.write(net);
        means.spend(self.edges.count().saturating_mul(EDGE));
        let mut paid = Purse::of(0);
        self.contraction
            .contract(&self.net, &mut self.kernel, &mut paid);
    }

    /// Adds a weight on an edge.
    fn add(&mut self, net: &FlowNet, e: u32, weight: u64) {
        let sum = self.flow.at(e);
        if sum == 0 {
            self.edges.push(e);
            self.note(net.tail(e));
            self.note(net.head(e));
        }
        self.flow.put(e, sum.saturating_add(weight));
    }

    fn note(&mut self, v: u32) {
        if self.names.at(v) == NONE {
            self.names.put(v, 0);
            self.vertices.push(v);
        }
    }

    /// The vertices are numbered along the order.
    fn name_vertices(&mut self) {
        self.vertices.as_mut_slice().sort_unstable();
        let mut name = 0u32;
        for &v in self.vertices.as_slice() {
            self.names.put(v, name);
            name = name.saturating_add(1);
        }
    }

    /// Writes the net, and forgets the sums and the names.
    fn write(&mut self, net: &FlowNet) {
        self.net.clear(self.vertices.count());
        for &e in self.edges.as_slice() {
            let tail = self.names.at(net.tail(e));
            let head = self.names.at(net.head(e));
            self.net.add(tail, head, self.flow.at(e));
            self.flow.put(e, 0);
        }
        for &v in self.vertices.as_slice() {
            self.names.put(v, NONE);
        }
        self.net.list_edges();
    }
}
