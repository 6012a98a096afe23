//! Descents: few paths whose sums are near the ranges, each in turn replaced by the best one against the sums of the others.
//!
//! The first round begins with no path; each further one with the best answer so far less one or two paths, half the time with other
//! weights. What a round gives is kept where its error is less.

use crate::draft::Draft;
use crate::paths::{Paths, tidy_into};
use dag_net::Answer;
use flow_models::Problem;
use search_rooms::{Chance, Names, Purse, View};
use std::alloc::{AllocError, Global};

/// The edges of all paths of a draft are at most so many.
const EDGES: u32 = 2_097_152;

/// How a descent goes on: after the first round so many more, by the lots of a seed; whether only an answer of error 0 is wanted.
#[derive(Clone, Copy)]
pub struct Rounds {
    pub rounds: u32,
    pub seed: u64,
    pub zero: bool,
}

/// A descent, with all its room.
#[derive(Drop)]
pub struct Descent<'a> {
    most: u32,
    draft: Draft<'a>,
    best: Paths,
    /// The error of the best answer, where there is one.
    error: Option<u64>,
    order: Names,
    ranks: Vec<u32>,
}

/// The number of edges of the longest path.
fn longest_path(alloc: Global, view: &View) -> Result<u32, AllocError> {
    let mut lengths = Names::nones(alloc, view.vertices())?;
    let mut longest = 0u32;
    for place in 0..view.vertices() {
        let v = view.vertex_at(place);
        let mut length = 0u32;
        for &e in view.into(v) {
            length = length.max(lengths.at(view.tail(e)).saturating_add(1));
        }
        lengths.put(v, length);
        longest = longest.max(length);
    }
    Ok(longest)
}

impl<'a> Descent<'a> {
    /// Room for descents of at most so many paths, or fewer where they are long.
    pub fn prepare(
        alloc: Global,
        view: &'a View<'a>,
        problem: &'a Problem,
        paths: u32,
    ) -> Result<Descent<'a>, AllocError> {
        let longest = longest_path(alloc, view)?.max(1);
        let most = paths.min(EDGES / longest);
        Ok(Descent {
            most,
            draft: Draft::with_room(alloc, view, problem, most, longest)?,
            best: Paths::with_room(alloc, most, longest)?,
            error: None,
            order: Names::nones(alloc, problem.rules.len())?,
            ranks: Vec::with_capacity(alloc, most as usize)?,
        })
    }

    /// The answer that was found last.
    pub fn answer(&self, alloc: Global) -> Result<Answer, AllocError> {
        self.best.answer(alloc)
    }

    /// Looks for at most k paths that cover the rules, of the least error that is met with, and gives that error.
    pub fn descend(&mut self, k: u32, how: Rounds, purse: &mut Purse) -> Option<u64> {
        self.error = None;
        self.best.clear();
        if k > self.most {
            return None;
        }
        let mut chance = Chance::new(how.seed);
        for round in 0..=how.rounds {
            if purse.is_spent() || self.error == Some(0) {
                break;
            }
            self.begin(round, &mut chance);
            if self.draft.cover(&self.order, k, purse) && self.draft.covers() {
                self.draft.fill(k, purse);
                self.draft.settle(purse);
                self.keep();
            }
        }
        match self.error {
            Some(error) if error > 0 && how.zero => None,
            error => error,
        }
    }

    /// Puts the paths of a round to begin with into the draft, and the rules into an order.
    fn begin(&mut self, round: u32, chance: &mut Chance) {
        self.draft.paths.copy_from(&self.best);
        if self.error.is_some() {
            self.leave_out(chance);
            self.change_weights(chance);
        }
        for rule in 0..self.order.len() {
            self.order.put(rule, rule);
        }
        if round > 0 {
            self.shuffle(chance);
        }
        self.draft.sum_up();
    }

    /// Leaves one or two paths out.
    fn leave_out(&mut self, chance: &mut Chance) {
        let count = chance.below(2).saturating_add(1);
        for _ in 0..count {
            let paths = self.draft.paths.count();
            if paths > 0 {
                let i = chance.below(paths);
                self.draft.paths.take_out(i);
            }
        }
    }

    /// Half the time gives all paths other weights, of 70 to 130 in a hundred.
    fn change_weights(&mut self, chance: &mut Chance) {
        if chance.below(2) > 0 {
            return;
        }
        for i in 0..self.draft.paths.count() {
            let parts = u64::from(chance.below(600)).saturating_add(700);
            let weight = self.draft.paths.weight(i).saturating_mul(parts) / 1000;
            self.draft.paths.put_weight(i, weight.max(1));
        }
    }

    /// Puts the rules into an order by lot.
    fn shuffle(&mut self, chance: &mut Chance) {
        for i in (1..self.order.len()).rev() {
            let j = chance.below(i.saturating_add(1));
            let rule = self.order.at(i);
            let other = self.order.at(j);
            self.order.put(i, other);
            self.order.put(j, rule);
        }
    }

    /// Keeps the draft where it covers the rules and has less error than the best answer.
    fn keep(&mut self) {
        let error = self.draft.spans.error();
        let is_better = match self.error {
            Some(least) => error < least,
            None => true,
        };
        if is_better && self.draft.covers() {
            tidy_into(&mut self.ranks, &mut self.draft.paths, &mut self.best);
            self.error = Some(error);
        }
    }
}
