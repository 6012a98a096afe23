//! Contraction: an inner vertex with one entering edge goes up into its tail, one with one leaving edge goes down into its head.
//!
//! The edge that joins the two falls away, and each other edge that moves is from then on the run of both. In the kernel each inner
//! vertex has two edges or more on both sides, if the room for joined runs lasts; it may stop anywhere.

use crate::chains::Chains;
use search_rooms::{FlowNet, NONE, Names, Paths, Pile, Purse};
use std::alloc::{AllocError, Global};

/// For each edge at most so many runs are joined, on the average.
const JOINED: u32 = 16;

/// Two runs, one behind the other.
#[derive(Clone, Copy, Default)]
struct Pair {
    first: u32,
    second: u32,
}

/// A net being contracted.
#[derive(Drop)]
pub struct Contraction {
    edges: u32,
    tails: Names,
    heads: Names,
    leaving: Chains,
    entering: Chains,
    /// For each edge its run: an edge, or behind the edges a joined pair of runs; none where the edge fell away.
    runs: Names,
    pairs: Pile<Pair>,
    waiting: Pile<u32>,
    /// For each vertex its number in the kernel, and for each edge of the kernel the edge that it was.
    names: Names,
    numbers: Pile<u32>,
    /// The edges from the source to the sink: their runs are paths of an answer already.
    direct: Pile<u32>,
    spelling: Pile<u32>,
}

impl Contraction {
    /// Room for nets of so many vertices and edges.
    pub fn with_room(alloc: Global, vertices: u32, edges: u32) -> Result<Contraction, AllocError> {
        let room = edges as usize;
        Ok(Contraction {
            edges: 0,
            tails: Names::nones(alloc, edges)?,
            heads: Names::nones(alloc, edges)?,
            leaving: Chains::with_room(alloc, vertices, edges)?,
            entering: Chains::with_room(alloc, vertices, edges)?,
            runs: Names::nones(alloc, edges)?,
            pairs: Pile::with_room(alloc, edges.saturating_mul(JOINED) as usize)?,
            waiting: Pile::with_room(alloc, vertices as usize)?,
            names: Names::nones(alloc, vertices)?,
            numbers: Pile::with_room(alloc, room)?,
            direct: Pile::with_room(alloc, room)?,
            spelling: Pile::with_room(alloc, room.saturating_add(2))?,
        })
    }

    /// Makes the kernel of a net.
    pub fn contract(&mut self, net: &FlowNet, kernel: &mut FlowNet, purse: &mut Purse) {
        self.begin(net);
        for _ in 0..net.vertices().saturating_mul(2) {
            let Some(v) = self.waiting.pop() else {
                break;
            };
            if v != 0 && v != net.sink() && self.has_room_at(v) {
                purse.spend(1);
                let moved = self.contract_at(v);
                purse.spend(u64::from(moved));
            }
        }
        self.number(net, kernel);
        self.write(net, kernel);
    }

    /// All vertices wait, and each edge is its own run.
    fn begin(&mut self, net: &FlowNet) {
        self.edges = net.edges();
        self.leaving.clear(net.vertices());
        self.entering.clear(net.vertices());
        self.pairs.clear();
        self.waiting.clear();
        for e in 0..net.edges() {
            self.tails.put(e, net.tail(e));
            self.heads.put(e, net.head(e));
            self.runs.put(e, e);
            self.leaving.put_in(net.tail(e), e);
            self.entering.put_in(net.head(e), e);
        }
        for v in 0..net.vertices() {
            self.waiting.push(v);
        }
    }

    /// Whether there is room for the runs that contraction at a vertex may join.
    fn has_room_at(&self, v: u32) -> bool {
        let moved = self.entering.count(v).max(self.leaving.count(v));
        self.pairs.count().saturating_add(moved) <= self.edges.saturating_mul(JOINED)
    }

    /// Contracts at a vertex, where that is possible. How many edges moved.
    fn contract_at(&mut self, v: u32) -> u32 {
        if self.entering.count(v) == 1 {
            self.go_up(v)
        } else if self.leaving.count(v) == 1 {
            self.go_down(v)
        } else {
            0
        }
    }

    /// One run behind another is from now on the run of an edge.
    fn join(&mut self, first: u32, second: u32, of: u32) {
        let pair = Pair {
            first: self.runs.at(first),
            second: self.runs.at(second),
        };
        let name = self.edges.saturating_add(self.pairs.count());
        self.pairs.push(pair);
        self.runs.put(of, name);
    }

    /// The edges that leave v leave its one predecessor. How many there are.
    fn go_up(&mut self, v: u32) -> u32 {
        let e = self.entering.first(v);
        let u = self.tails.at(e);
        self.entering.take_out(v, e);
        self.leaving.take_out(u, e);
        let moved = self.leaving.count(v);
        for _ in 0..moved {
            let f = self.leaving.first(v);
            self.join(e, f, f);
            self.leaving.take_out(v, f);
            self.tails.put(f, u);
            self.leaving.put_in(u, f);
        }
        self.runs.put(e, NONE);
        self.waiting.push(u);
        moved
    }

    /// The edges that enter v enter its one successor. How many there are.
    fn go_down(&mut self, v: u32) -> u32 {
        let e = self.leaving.first(v);
        let u = self.heads.at(e);
        self.leaving.take_out(v, e);
        self.entering.take_out(u, e);
        let moved = self.entering.count(v);
        for _ in 0..moved {
            let f = self.entering.first(v);
            self.join(f, e, f);
            self.entering.take_out(v, f);
            self.heads.put(f, u);
            self.entering.put_in(u, f);
        }
        self.runs.put(e, NONE);
        self.waiting.push(u);
        moved
    }

    /// Numbers the vertices that are left anew, in the same order.
    fn number(&mut self, net: &FlowNet, kernel: &mut FlowNet) {
        let mut next = 0u32;
        for v in 0..net.vertices() {
            self.names.put(v, next);
            if v == 0 || v == net.sink() || self.entering.count(v) > 0 {
                next = next.saturating_add(1);
            }
        }
        kernel.clear(next);
    }

    /// Writes the edges that are left into the kernel.
    fn write(&mut self, net: &FlowNet, kernel: &mut FlowNet) {
        self.numbers.clear();
        self.direct.clear();
        for e in 0..net.edges() {
            let tail = self.tails.at(e);
            let head = self.heads.at(e);
            if self.runs.at(e) == NONE {
                continue;
            }
            if tail == 0 && head == net.sink() {
                self.direct.push(e);
            } else {
                kernel.add(self.names.at(tail), self.names.at(head), net.flow(e));
                self.numbers.push(e);
            }
        }
        kernel.list_edges();
    }

    /// The number of paths that need no search.
    pub fn direct(&self) -> u32 {
        self.direct.count()
    }

    /// Writes the paths of the net: those of the kernel, and the direct ones.
    pub fn lift(&mut self, net: &FlowNet, answer: &Paths, lifted: &mut Paths) {
        lifted.clear();
        for i in 0..answer.count() {
            for &e in answer.path(i) {
                self.spell_edge(e, lifted);
            }
            lifted.end(answer.weight(i));
        }
        for i in 0..self.direct.count() {
            let weight = self.spell_direct(net, i, lifted);
            lifted.end(weight);
        }
    }

    /// Writes the run of an edge of the kernel behind the path that is not ended yet.
    pub fn spell_edge(&mut self, e: u32, lifted: &mut Paths) {
        let run = self.runs.at(self.numbers.at(e));
        self.spell(run, lifted);
    }

    /// Writes direct path i behind the path that is not ended yet. Its weight.
    pub fn spell_direct(&mut self, net: &FlowNet, i: u32, lifted: &mut Paths) -> u64 {
        let e = self.direct.at(i);
        let run = self.runs.at(e);
        self.spell(run, lifted);
        net.flow(e)
    }

    /// Writes a run behind the path that is not ended yet.
    fn spell(&mut self, run: u32, lifted: &mut Paths) {
        self.spelling.clear();
        self.spelling.push(run);
        for _ in 0..self.edges.saturating_mul(2) {
            let Some(run) = self.spelling.pop() else {
                break;
            };
            if run < self.edges {
                lifted.push(run);
            } else {
                let pair = self.pairs.at(run.saturating_sub(self.edges));
                self.spelling.push(pair.second);
                self.spelling.push(pair.first);
            }
        }
    }
}
