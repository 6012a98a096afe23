//! The open box: a range and a walk for each slot, changed by tokens and set back.
//!
//! Slots stand by falling weight, so a lower greatest weight lowers those behind it, and a higher least weight raises those before it.
//! Each change of a slot is noted, and is undone by the same sums the other way round: a note costs nothing for each edge that it moved.

use crate::ground::Ground;
use crate::loads::Loads;
use crate::walks::Walks;
use dag_net::{Answer, Ids};
use decomposition::Token;
use flow_models::Problem;
use search_rooms::{Amounts, NONE, Pile};
use std::alloc::{AllocError, Global};

/// So many changes are noted at a time.
const CHANGES: usize = 262_144;

/// What was changed, and what stood there.
#[derive(Clone, Copy)]
enum Change {
    Most(u32, u64),
    Least(u32, u64),
    Walk(u32),
}

/// The open box.
#[derive(Drop)]
pub struct OpenBox<'a> {
    ground: &'a Ground<'a>,
    problem: &'a Problem,
    limit: Option<u64>,
    slots: u32,
    /// The least and the greatest weight of each slot.
    least: Amounts,
    most: Amounts,
    walks: Walks,
    loads: Loads,
    changes: Pile<Change>,
    /// The edges that were touched since this was asked last.
    work: u64,
}

impl<'a> OpenBox<'a> {
    /// The box of a decision that no token has changed.
    pub fn root(
        alloc: Global,
        ground: &'a Ground<'a>,
        problem: &'a Problem,
        slots: u32,
        limit: Option<u64>,
    ) -> Result<OpenBox<'a>, AllocError> {
        let all = problem.cap.saturating_mul(u64::from(slots));
        let mut most = Amounts::zeros(alloc, slots)?;
        for slot in 0..slots {
            most.put(slot, problem.cap);
        }
        Ok(OpenBox {
            ground,
            problem,
            limit,
            slots,
            least: Amounts::zeros(alloc, slots)?,
            most,
            walks: Walks::of(alloc, slots, CHANGES)?,
            loads: Loads::of(alloc, problem, all)?,
            changes: Pile::with_room(alloc, CHANGES)?,
            work: 0,
        })
    }

    /// The number of slots.
    pub fn slots(&self) -> u32 {
        self.slots
    }

    /// The greatest weight that a path may have.
    pub fn cap(&self) -> u64 {
        self.problem.cap
    }

    /// The least weight of a slot.
    pub fn least(&self, slot: u32) -> u64 {
        self.least.at(slot)
    }

    /// The greatest weight of a slot.
    pub fn most(&self, slot: u32) -> u64 {
        self.most.at(slot)
    }

    /// How far the least and the greatest weight of a slot lie apart.
    pub fn range(&self, slot: u32) -> u64 {
        self.most(slot).saturating_sub(self.least(slot))
    }

    /// The middle of the range of a slot.
    pub fn middle(&self, slot: u32) -> u64 {
        self.least(slot).midpoint(self.most(slot))
    }

    /// The vertex at which a walk ends, or none where it is empty.
    pub fn end(&self, slot: u32) -> u32 {
        self.walks.end(slot)
    }

    /// Whether the vertices are the same, or a walk leads from the first to the second.
    pub fn reaches(&self, u: u32, v: u32) -> bool {
        self.ground.view().reaches(u, v)
    }

    /// Takes the number of edges that were touched since this was asked last.
    pub fn take_work(&mut self) -> u64 {
        let work = self.work;
        self.work = 0;
        work
    }

    /// Counts so many edges as touched.
    pub fn touch(&mut self, edges: u64) {
        self.work = self.work.saturating_add(edges);
    }

    /// The present state, to come back to.
    pub fn mark(&self) -> usize {
        self.changes.len()
    }

    /// Whether a further token may find no room for what it changes.
    pub fn is_full(&self) -> bool {
        let room = CHANGES.saturating_sub(self.changes.len());
        room <= (self.slots as usize).saturating_mul(2)
    }

    /// Whether the walk of a slot may go on.
    pub fn can_step(&self, slot: u32) -> bool {
        let view = self.ground.view();
        let end = self.end(slot);
        self.most(slot) >= 1 && view.edges() > 0 && (end == NONE || !view.is_sink(end))
    }

    /// Whether the range of a slot may be split.
    pub fn can_split(&self, slot: u32) -> bool {
        self.range(slot) > 0 && self.ground.view().edges() > 0
    }

    /// The edges that may follow on the walk of a slot.
    pub fn next_edges(&self, slot: u32) -> &'a [u32] {
        let ground = self.ground;
        let end = self.end(slot);
        if end == NONE {
            ground.view().first_edges()
        } else {
            ground.view().out(end)
        }
    }

    /// The lower half of a split: no weight of the slot and of those behind it is above the middle.
    pub fn cut(&mut self, slot: u32, middle: u64) {
        for j in slot..self.slots {
            let old = self.most.at(j);
            if old <= middle {
                break;
            }
            self.changes.push(Change::Most(j, old));
            self.put_most(j, middle);
        }
    }

    /// The upper half: no weight of the slot and of those before it is below.
    pub fn raise(&mut self, slot: u32, weight: u64) {
        for j in (0..slot.saturating_add(1)).rev() {
            let old = self.least.at(j);
            if old >= weight {
                break;
            }
            self.changes.push(Change::Least(j, old));
            self.put_least(j, weight);
        }
    }

    /// One child of a step: the walk of the slot goes on by an edge.
    pub fn step(&mut self, slot: u32, edge: u32) {
        let most = self.most.at(slot);
        let least = self.least.at(slot);
        let end = self.end(slot);
        let head = self.ground.view().head(edge);
        self.move_lost(end, head, edge, most, 0);
        self.loads.move_low(edge, 0, least);
        self.walks.grow(slot, edge, head);
        self.changes.push(Change::Walk(slot));
    }

    /// Takes the last step of a slot back.
    fn step_back(&mut self, slot: u32) {
        let most = self.most.at(slot);
        let least = self.least.at(slot);
        let head = self.end(slot);
        let edge = self.walks.shrink(self.ground.view(), slot);
        self.loads.move_low(edge, least, 0);
        let end = self.end(slot);
        self.move_lost(end, head, edge, 0, most);
    }

    /// Comes back to an earlier state.
    pub fn back_to(&mut self, mark: usize) {
        for _ in mark..self.changes.len() {
            match self.changes.pop() {
                Some(Change::Most(slot, weight)) => self.put_most(slot, weight),
                Some(Change::Least(slot, weight)) => self.put_least(slot, weight),
                Some(Change::Walk(slot)) => self.step_back(slot),
                None => return,
            }
        }
    }

    /// Moves the sums of the edges that a walk may take before a step, and not after it, but for the edge of the step.
    fn move_lost(&mut self, end: u32, head: u32, edge: u32, old: u64, new: u64) {
        let ground = self.ground;
        let mut first = 0u32;
        for (&before, &after) in ground.ahead(end).iter().zip(ground.ahead(head)) {
            let mut word = before & !after;
            for _ in 0..word.count_ones() {
                let e = first.saturating_add(word.trailing_zeros());
                word &= word.wrapping_sub(1);
                if e != edge {
                    self.loads.move_high(e, old, new);
                }
            }
            first = first.saturating_add(64);
        }
        self.touch(u64::from(ground.count_ahead(end)));
    }

    /// Puts the greatest weight of a slot, and mends the sums of the edges that it may have.
    fn put_most(&mut self, slot: u32, weight: u64) {
        let ground = self.ground;
        let old = self.most.at(slot);
        self.most.put(slot, weight);
        let mut place = self.walks.tip(slot);
        for _ in 0..self.walks.len(slot) {
            let cell = self.walks.cell(place);
            self.loads.move_high(cell.edge, old, weight);
            place = cell.before;
        }
        let end = self.end(slot);
        let mut first = 0u32;
        for &ahead in ground.ahead(end) {
            let mut word = ahead;
            for _ in 0..word.count_ones() {
                let e = first.saturating_add(word.trailing_zeros());
                word &= word.wrapping_sub(1);
                self.loads.move_high(e, old, weight);
            }
            first = first.saturating_add(64);
        }
        let ahead = u64::from(ground.count_ahead(end));
        let touched = u64::from(self.walks.len(slot)).saturating_add(ahead);
        self.touch(touched);
    }

    /// Puts the least weight of a slot, and mends the sums of the edges that it has.
    fn put_least(&mut self, slot: u32, weight: u64) {
        let old = self.least.at(slot);
        self.least.put(slot, weight);
        let mut place = self.walks.tip(slot);
        for _ in 0..self.walks.len(slot) {
            let cell = self.walks.cell(place);
            self.loads.move_low(cell.edge, old, weight);
            place = cell.before;
        }
        let touched = u64::from(self.walks.len(slot)).saturating_add(1);
        self.touch(touched);
    }

    /// Whether the gap closes the box.
    pub fn has_gap(&self) -> bool {
        match self.limit {
            Some(limit) => self.loads.gap() > u128::from(limit),
            None => false,
        }
    }

    /// Whether no slot of a weight that may be positive may contain a rule.
    pub fn is_missed(&self, rule: u32) -> bool {
        if rule >= self.problem.rules.len() {
            return false;
        }
        let run = self.problem.rules.run(rule);
        for slot in 0..self.slots {
            if self.most(slot) >= 1 && self.walks.may_contain(self.ground.view(), slot, run) {
                return false;
            }
        }
        true
    }

    /// The first rule that is missed.
    pub fn first_missed(&self) -> Option<u32> {
        for rule in 0..self.problem.rules.len() {
            if self.is_missed(rule) {
                return Some(rule);
            }
        }
        None
    }

    /// The token that closes the box by its weights alone, if there is one.
    pub fn closed_by_weights(&self) -> Option<Token> {
        if self.has_gap() {
            Some(Token::Gap)
        } else {
            None
        }
    }

    /// The token that closes the box, if there is one.
    pub fn closing(&self) -> Option<Token> {
        if let Some(token) = self.closed_by_weights() {
            return Some(token);
        }
        match self.first_missed() {
            Some(rule) => Some(Token::Miss(rule)),
            None => None,
        }
    }

    /// The walk of a slot as a path.
    fn path_of(&self, alloc: Global, slot: u32) -> Result<Ids, AllocError> {
        let mut edges = Vec::new(alloc);
        let mut place = self.walks.tip(slot);
        for _ in 0..self.walks.len(slot) {
            let cell = self.walks.cell(place);
            edges.push(cell.edge)?;
            place = cell.before;
        }
        edges.reverse();
        let mut path = Ids::new(alloc);
        for &e in &edges {
            path.push(e)?;
        }
        Ok(path)
    }

    /// The walks of the slots with their greatest weights, for a box at which no token can be taken.
    pub fn answer(&self, alloc: Global) -> Result<Answer, AllocError> {
        let mut answer = Answer::new(alloc);
        for slot in 0..self.slots {
            let weight = self.most(slot);
            if weight >= 1 && self.walks.len(slot) > 0 {
                let path = self.path_of(alloc, slot)?;
                answer.push(path, weight)?;
            }
        }
        Ok(answer)
    }
}
