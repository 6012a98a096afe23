//! One half of the routing: the slots go from their edges of the antichain to the sinks, or back to the sources.
//!
//! At a vertex with slots each of its edges but the last is given slots of exactly its flow, greatest first; the last one gets the rest,
//! which must fit. Where a vertex has no such gift, the slot that was taken last, at whatever vertex, is left out instead.

use search_rooms::{Amounts, NONE, Names, Pile, Purse, View};
use std::alloc::{AllocError, Global};

/// The place of the order, the number of the edge there, the next rank to look at, what the edge still lacks, and the weight that
/// was left out last, which its equals share.
#[derive(Clone, Copy)]
struct Turn {
    place: u32,
    edge: u32,
    rank: u32,
    lacks: u64,
    left_out: u64,
}

/// What can be taken back.
#[derive(Clone, Copy)]
enum Mark {
    /// So many slots of this place of the order went on.
    Passed { place: u32, count: u32 },
    /// At a turn a slot was taken.
    Taken { turn: Turn },
}

/// A slot that went on by an edge, and the place of its move before.
#[derive(Clone, Copy)]
struct Move {
    slot: u32,
    edge: u32,
    before: u32,
}

/// So many moves, and so many gifts, are kept at a time.
const ROOM: usize = 524_288;

/// One half of the work.
#[derive(Drop)]
pub struct Half<'a> {
    view: &'a View<'a>,
    flow: &'a Amounts,
    forward: bool,
    /// The slots by falling weight.
    ranked: Vec<u32>,
    weights: Amounts,
    ends: Names,
    /// The edge that each slot at the present vertex is given, or none.
    given: Names,
    /// The slots at the present vertex, by falling weight, and its edges that have a flow.
    slots: Pile<u32>,
    edges: Pile<u32>,
    trail: Pile<Mark>,
    moves: Pile<Move>,
    /// The place of the last move of each slot, or none.
    tips: Names,
    turn: Turn,
    /// What the slots from the present rank on that are not given yet weigh.
    spare: u64,
    entering: bool,
}

impl<'a> Half<'a> {
    /// All slots on their edges of the antichain.
    pub fn start(
        alloc: Global,
        view: &'a View<'a>,
        flow: &'a Amounts,
        antichain: &[u32],
        forward: bool,
    ) -> Result<Half<'a>, AllocError> {
        let count = u32::try_from(antichain.len()).unwrap_or(0);
        let mut weights = Amounts::zeros(alloc, count)?;
        let mut ends = Names::nones(alloc, count)?;
        let mut ranked = Vec::with_capacity(alloc, antichain.len())?;
        let mut slot = 0u32;
        for &e in antichain {
            weights.put(slot, flow.at(e));
            ends.put(slot, if forward { view.head(e) } else { view.tail(e) });
            ranked.push(slot)?;
            slot = slot.saturating_add(1);
        }
        ranked.sort_unstable_by(|&a, &b| weights.at(b).cmp(&weights.at(a)).then(a.cmp(&b)));
        Ok(Half {
            view,
            flow,
            forward,
            ranked,
            weights,
            ends,
            given: Names::nones(alloc, count)?,
            slots: Pile::with_room(alloc, antichain.len())?,
            edges: Pile::with_room(alloc, view.edges() as usize)?,
            trail: Pile::with_room(alloc, ROOM)?,
            moves: Pile::with_room(alloc, ROOM)?,
            tips: Names::nones(alloc, count)?,
            turn: Turn {
                place: 0,
                edge: 0,
                rank: 0,
                lacks: 0,
                left_out: 0,
            },
            spare: 0,
            entering: true,
        })
    }

    /// The edges by which a slot went, the last one first.
    pub fn edges_of(&self, alloc: Global, slot: u32) -> Result<Vec<u32>, AllocError> {
        let mut edges = Vec::new(alloc);
        let mut place = self.tips.at(slot);
        for _ in 0..self.view.vertices() {
            let Some(step) = self.moves.get(place as usize) else {
                break;
            };
            edges.push(step.edge)?;
            place = step.before;
        }
        Ok(edges)
    }

    fn vertex(&self, place: u32) -> u32 {
        if self.forward {
            self.view.vertex_at(place)
        } else {
            self.view.vertex_at(self.view.vertices().saturating_sub(1).saturating_sub(place))
        }
    }

    fn is_end(&self, v: u32) -> bool {
        if self.forward {
            self.view.is_sink(v)
        } else {
            self.view.is_source(v)
        }
    }

    /// Lists the edges at a vertex that have a flow.
    fn list_edges(&mut self, v: u32) {
        self.edges.clear();
        let view = self.view;
        let edges = if self.forward {
            view.out(v)
        } else {
            view.into(v)
        };
        for &e in edges {
            if self.flow.at(e) > 0 {
                self.edges.push(e);
            }
        }
    }

    /// Lists the slots at a vertex, by falling weight.
    fn list_slots(&mut self, v: u32) {
        self.slots.clear();
        for &slot in &self.ranked {
            if self.ends.at(slot) == v {
                self.slots.push(slot);
            }
        }
    }

    fn slot_at(&self, rank: u32) -> u32 {
        self.slots.get(rank as usize).unwrap_or(NONE)
    }

    fn edge_at(&self, place: u32) -> u32 {
        self.edges.get(place as usize).unwrap_or(NONE)
    }

    /// What the slots from a rank on that are not given yet weigh.
    fn spare_from(&self, rank: u32) -> u64 {
        let mut sum = 0u64;
        for &slot in self.slots.as_slice().iter().skip(rank as usize) {
            if self.given.at(slot) == NONE {
                sum = sum.saturating_add(self.weights.at(slot));
            }
        }
        sum
    }

    /// Turns to an edge of the present vertex.
    fn turn_to(&mut self, edge: u32) {
        let lacks = self.flow.at(self.edge_at(edge));
        self.turn = Turn {
            place: self.turn.place,
            edge,
            rank: 0,
            lacks,
            left_out: 0,
        };
        self.spare = self.spare_from(0);
    }

    fn next_place(&mut self) {
        self.turn.place = self.turn.place.saturating_add(1);
        self.entering = true;
    }

    fn next_rank(&mut self) {
        self.turn.rank = self.turn.rank.saturating_add(1);
    }

    /// Comes to the vertex at the present place; true where all places are done.
    fn enter(&mut self) -> bool {
        if self.turn.place >= self.view.vertices() {
            return true;
        }
        let v = self.vertex(self.turn.place);
        self.list_slots(v);
        if self.slots.is_empty() || self.is_end(v) {
            self.next_place();
            return false;
        }
        self.list_edges(v);
        self.turn_to(0);
        self.entering = false;
        false
    }

    /// Gives the last edge the rest, and lets all slots go on.
    fn pass(&mut self, rest: u32) {
        let mut count = 0u32;
        for &slot in self.slots.as_slice() {
            let given = self.given.at(slot);
            let edge = if given == NONE { rest } else { given };
            let before = self.tips.at(slot);
            let place = u32::try_from(self.moves.len()).unwrap_or(NONE);
            self.moves.push(Move { slot, edge, before });
            self.tips.put(slot, place);
            self.ends.put(
                slot,
                if self.forward {
                    self.view.head(edge)
                } else {
                    self.view.tail(edge)
                },
            );
            self.given.put(slot, NONE);
            count = count.saturating_add(1);
        }
        self.trail.push(Mark::Passed {
            place: self.turn.place,
            count,
        });
    }

    /// Takes back what `pass` did: the slots stand at the vertex again with what they were given, the last edge's with nothing.
    fn pass_back(&mut self, place: u32, count: u32) {
        let v = self.vertex(place);
        self.list_edges(v);
        let rest = self.edges.as_slice().last().copied().unwrap_or(NONE);
        for _ in 0..count {
            if let Some(back) = self.moves.pop() {
                self.tips.put(back.slot, back.before);
                self.ends.put(back.slot, v);
                self.given.put(back.slot, if back.edge == rest { NONE } else { back.edge });
            }
        }
        self.list_slots(v);
        // the last edge had the rest: nothing else is to be had there
        let edge = u32::try_from(self.edges.len()).unwrap_or(NONE);
        self.turn = Turn {
            place,
            edge,
            rank: 0,
            lacks: 0,
            left_out: 0,
        };
        self.edges.clear();
    }

    /// Leaves the slot out that was taken at a turn.
    fn take_back(&mut self, turn: Turn) {
        let v = self.vertex(turn.place);
        self.list_edges(v);
        let slot = self.slot_at(turn.rank);
        self.given.put(slot, NONE);
        self.turn = turn;
        self.turn.left_out = self.weights.at(slot);
        self.next_rank();
        self.spare = self.spare_from(self.turn.rank);
    }

    /// Goes back to the latest choice; false where there is none.
    fn go_back(&mut self) -> bool {
        match self.trail.pop() {
            None => return false,
            Some(Mark::Passed { place, count }) => self.pass_back(place, count),
            Some(Mark::Taken { turn }) => self.take_back(turn),
        }
        true
    }

    /// Takes or leaves the slot of the present rank.
    fn look_at_slot(&mut self) {
        let slot = self.slot_at(self.turn.rank);
        let weight = self.weights.at(slot);
        if self.given.at(slot) != NONE {
            self.next_rank();
            return;
        }
        self.spare = self.spare.saturating_sub(weight);
        if weight == self.turn.left_out || weight > self.turn.lacks {
            self.next_rank();
            return;
        }
        let edge = self.edge_at(self.turn.edge);
        self.given.put(slot, edge);
        self.trail.push(Mark::Taken { turn: self.turn });
        self.turn.lacks = self.turn.lacks.saturating_sub(weight);
        self.turn.left_out = 0;
        self.next_rank();
    }

    /// One step: whether all slots have come to an end, or cannot; none where the work goes on.
    fn step(&mut self) -> Option<bool> {
        if self.entering {
            return if self.enter() { Some(true) } else { None };
        }
        let after = self.turn.edge.saturating_add(1);
        if after as usize >= self.edges.len() {
            let rest = self.edge_at(self.turn.edge);
            if rest != NONE && self.spare_from(0) == self.flow.at(rest) {
                self.pass(rest);
                self.next_place();
                return None;
            }
        } else if self.turn.lacks == 0 {
            self.turn_to(after);
            return None;
        } else if (self.turn.rank as usize) < self.slots.len() && self.spare >= self.turn.lacks {
            self.look_at_slot();
            return None;
        }
        if self.go_back() { None } else { Some(false) }
    }

    /// Whether all slots come to an end; none where the work or the room is used up.
    pub fn run(&mut self, purse: &mut Purse) -> Option<bool> {
        for _ in 0..purse.left() {
            purse.spend(1);
            if self.moves.is_full() || self.trail.is_full() {
                return None;
            }
            if let Some(end) = self.step() {
                return Some(end);
            }
        }
        None
    }
}
