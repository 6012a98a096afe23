//! A search for the nearest flow that is trusted for nothing: what it finds is checked.
//!
//! It is the primal-dual method for flows of least cost, where each unit of change costs 1.
//!
//! 1. The flow begins as the weights and the levels as 0. Each number of the flow stays in the range that the levels give its edge.
//! 2. From all inner vertices that receive too much at once, a breadth first search over edges with room goes to a vertex that sends too much, or that is a source or a sink. As much
//!    as can be is sent there, and the search is made anew.
//! 3. Where a search has come to its end, the levels of all that it has reached rise by 1, and it goes on from there.
//! 4. The same against the edges for the vertices that send too much: there levels fall.

use crate::climb::tight_range;
use crate::found::Nearest;
use crate::levels::Levels;
use dag_net::{Net, Numbers};
use decomposition::Side;
use search_rooms::{Amounts, NONE, Names, Pile, Purse, View};
use std::alloc::{AllocError, Global};

/// How many visits of a vertex a search may make.
const MOST_VISITS: u64 = 50_000_000;

/// A flow and levels that are not nearest yet.
#[derive(Drop)]
struct Draft<'a> {
    view: &'a View<'a>,
    weights: Amounts,
    flow: Amounts,
    levels: Vec<i64>,
    /// How much more enters an inner vertex than leaves it.
    surplus: Amounts,
    /// How much more leaves an inner vertex than enters it.
    lack: Amounts,
    reached: Pile<u32>,
    /// The edge over which a vertex was reached.
    came: Names,
    /// The search that has reached a vertex last.
    marked: Names,
    search: u32,
    target: u32,
}

impl<'a> Draft<'a> {
    /// The weights as a flow, and levels of 0.
    fn start(alloc: Global, view: &'a View<'a>, weights: &[u64]) -> Result<Draft<'a>, AllocError> {
        let vertices = view.vertices();
        let mut draft = Draft {
            view,
            weights: Amounts::copy_of(alloc, weights)?,
            flow: Amounts::copy_of(alloc, weights)?,
            levels: vec![in alloc; 0; vertices as usize]?,
            surplus: Amounts::zeros(alloc, vertices)?,
            lack: Amounts::zeros(alloc, vertices)?,
            reached: Pile::with_room(alloc, vertices as usize)?,
            came: Names::nones(alloc, vertices)?,
            marked: Names::nones(alloc, vertices)?,
            search: 0,
            target: NONE,
        };
        for v in 0..vertices {
            draft.measure(v);
        }
        Ok(draft)
    }

    /// The flow of some edges.
    fn sum(&self, edges: &[u32]) -> u64 {
        let mut sum = 0u64;
        for &e in edges {
            sum = sum.saturating_add(self.flow.at(e));
        }
        sum
    }

    /// Notes how far the vertex is from its balance.
    fn measure(&mut self, v: u32) {
        if self.is_end(v) {
            return;
        }
        let into = self.sum(self.view.into(v));
        let out = self.sum(self.view.out(v));
        self.surplus.put(v, into.saturating_sub(out));
        self.lack.put(v, out.saturating_sub(into));
    }

    /// Whether the vertex is a source or a sink.
    fn is_end(&self, v: u32) -> bool {
        self.view.is_source(v) || self.view.is_sink(v)
    }

    /// The level of a vertex.
    fn level(&self, v: u32) -> i64 {
        self.levels.get(v as usize).copied().unwrap_or(0)
    }

    /// What the vertex has too much of, seen from a side.
    fn excess(&self, side: Side, v: u32) -> u64 {
        match side {
            Side::Entering => self.surplus.at(v),
            Side::Leaving => self.lack.at(v),
        }
    }

    /// What the vertex can take up, seen from a side.
    fn demand(&self, side: Side, v: u32) -> u64 {
        if self.is_end(v) {
            return u64::MAX;
        }
        match side {
            Side::Entering => self.lack.at(v),
            Side::Leaving => self.surplus.at(v),
        }
    }

    /// Whether a step from the vertex over the edge makes the number of the edge greater.
    fn grows(&self, side: Side, v: u32, e: u32) -> bool {
        match side {
            Side::Entering => self.view.tail(e) == v,
            Side::Leaving => self.view.head(e) == v,
        }
    }

    /// How much a step from the vertex over the edge can send.
    fn room(&self, side: Side, v: u32, e: u32) -> u64 {
        let up = self
            .level(self.view.head(e))
            .saturating_sub(self.level(self.view.tail(e)));
        let range = tight_range(up, self.weights.at(e), u64::MAX);
        let units = self.flow.at(e);
        if self.grows(side, v, e) {
            range.hi.saturating_sub(units)
        } else {
            units.saturating_sub(range.lo)
        }
    }

    /// The other end of an edge at the vertex.
    fn across(&self, v: u32, e: u32) -> u32 {
        let tail = self.view.tail(e);
        if tail == v { self.view.head(e) } else { tail }
    }

    /// Enters a vertex that the search has not reached.
    fn enter(&mut self, side: Side, v: u32, e: u32) {
        if self.marked.at(v) == self.search {
            return;
        }
        self.marked.put(v, self.search);
        self.came.put(v, e);
        self.reached.push(v);
        if self.target == NONE && self.demand(side, v) > 0 {
            self.target = v;
        }
    }

    /// Begins a search at the vertices that have too much.
    fn begin(&mut self, side: Side) {
        self.reached.clear();
        self.target = NONE;
        self.search = self.search.saturating_add(1);
        for v in 0..self.view.vertices() {
            if self.excess(side, v) > 0 {
                self.enter(side, v, NONE);
            }
        }
    }

    /// Enters the vertices across these edges of the vertex, where there is room.
    fn follow(&mut self, side: Side, v: u32, edges: &[u32]) {
        for &e in edges {
            if self.room(side, v, e) > 0 {
                let to = self.across(v, e);
                self.enter(side, to, e);
            }
        }
    }

    /// Changes the levels of all vertices that the search has reached.
    fn shift(&mut self, side: Side) {
        for place in 0..self.reached.count() {
            let v = self.reached.at(place);
            let level = match side {
                Side::Entering => self.level(v).saturating_add(1),
                Side::Leaving => self.level(v).saturating_sub(1),
            };
            if let Some(entry) = self.levels.get_mut(v as usize) {
                *entry = level;
            }
        }
    }

    /// Searches until a vertex is reached that takes something up.
    fn reach(&mut self, side: Side, purse: &mut Purse) {
        let view = self.view;
        let mut place = 0u32;
        for _ in 0..purse.left() {
            if self.target != NONE {
                return;
            }
            if place < self.reached.count() {
                let v = self.reached.at(place);
                self.follow(side, v, view.out(v));
                self.follow(side, v, view.into(v));
                place = place.saturating_add(1);
            } else {
                self.shift(side);
                place = 0;
            }
            purse.spend(1);
        }
    }

    /// The vertex where the way to the target begins, and how much can be sent along it.
    fn way(&self, side: Side) -> (u32, u64) {
        let mut v = self.target;
        let mut amount = self.demand(side, v);
        for _ in 0..self.view.vertices() {
            let e = self.came.at(v);
            if e == NONE {
                break;
            }
            v = self.across(v, e);
            amount = amount.min(self.room(side, v, e));
        }
        (v, amount.min(self.excess(side, v)))
    }

    /// Changes the number of an edge by a step from the vertex.
    fn carry(&mut self, side: Side, v: u32, e: u32, amount: u64) {
        let units = self.flow.at(e);
        let changed = if self.grows(side, v, e) {
            units.saturating_add(amount)
        } else {
            units.saturating_sub(amount)
        };
        self.flow.put(e, changed);
    }

    /// Takes something off what a vertex has too much of.
    fn settle(&mut self, side: Side, v: u32, amount: u64) {
        let left = self.excess(side, v).saturating_sub(amount);
        match side {
            Side::Entering => self.surplus.put(v, left),
            Side::Leaving => self.lack.put(v, left),
        }
    }

    /// Sends as much as can be to the target.
    fn send(&mut self, side: Side) {
        let (from, amount) = self.way(side);
        let mut v = self.target;
        if !self.is_end(v) {
            let other = match side {
                Side::Entering => Side::Leaving,
                Side::Leaving => Side::Entering,
            };
            self.settle(other, v, amount);
        }
        self.settle(side, from, amount);
        for _ in 0..self.view.vertices() {
            let e = self.came.at(v);
            if e == NONE {
                break;
            }
            v = self.across(v, e);
            self.carry(side, v, e, amount);
        }
    }

    /// Balances the vertices that have too much, seen from a side.
    fn run(&mut self, side: Side, purse: &mut Purse) {
        for _ in 0..purse.left() {
            self.begin(side);
            if self.reached.is_empty() {
                return;
            }
            self.reach(side, purse);
            if self.target == NONE || purse.is_spent() {
                return;
            }
            self.send(side);
        }
    }

    /// The flow and the levels as they stand.
    fn finish(&self, alloc: Global) -> Result<Nearest, AllocError> {
        let mut flow = Numbers::new(alloc);
        let mut change = 0u128;
        for e in 0..self.view.edges() {
            let units = self.flow.at(e);
            flow.push(units)?;
            change = change.saturating_add(u128::from(self.weights.at(e).abs_diff(units)));
        }
        let mut levels = Levels::new(alloc);
        for v in 0..self.view.vertices() {
            levels.push(self.level(v))?;
        }
        Ok(Nearest {
            flow,
            levels,
            change,
        })
    }
}

/// A flow and levels that are probably nearest; nothing is claimed of them.
pub fn first_try(alloc: Global, net: &Net, weights: &[u64]) -> Result<Nearest, AllocError> {
    let view = View::of(alloc, net)?;
    let mut draft = Draft::start(alloc, &view, weights)?;
    let mut purse = Purse::of(MOST_VISITS);
    draft.run(Side::Entering, &mut purse);
    draft.run(Side::Leaving, &mut purse);
    draft.finish(alloc)
}
