//! A draft of an answer: paths and their sums. Each path in turn is replaced by the best one against the sums of the others.

use crate::line::{Line, contains};
use crate::passes::Passes;
use crate::paths::Paths;
use crate::spans::Spans;
use flow_models::Problem;
use search_rooms::{NONE, Names, Purse, View};
use std::alloc::{AllocError, Global};

/// So often all paths are replaced in turn.
const SWEEPS: u32 = 100;

/// Paths and their sums.
#[derive(Drop)]
pub struct Draft<'a> {
    problem: &'a Problem,
    pub paths: Paths,
    pub spans: Spans,
    passes: Passes<'a>,
    /// The path that is looked at.
    old: Line,
}

impl<'a> Draft<'a> {
    /// Room for so many paths of so many edges, none there.
    pub fn with_room(
        alloc: Global,
        view: &'a View<'a>,
        problem: &'a Problem,
        most: u32,
        longest: u32,
    ) -> Result<Draft<'a>, AllocError> {
        Ok(Draft {
            problem,
            paths: Paths::with_room(alloc, most, longest)?,
            spans: Spans::of(alloc, problem)?,
            passes: Passes::of(alloc, view)?,
            old: Line::with_room(alloc, longest as usize)?,
        })
    }

    /// Sums the paths up anew.
    pub fn sum_up(&mut self) {
        self.spans.clear();
        for i in 0..self.paths.count() {
            self.spans
                .add_along(self.paths.path(i), self.paths.weight(i));
        }
    }

    /// The run of a rule, or an empty one.
    fn run(&self, rule: u32) -> &'a [u32] {
        if rule < self.problem.rules.len() {
            self.problem.rules.run(rule)
        } else {
            &[]
        }
    }

    /// Whether some path but one contains a run.
    fn is_covered(&self, run: &[u32], without: u32) -> bool {
        for i in 0..self.paths.count() {
            if i != without && contains(self.paths.path(i), run) {
                return true;
            }
        }
        false
    }

    /// Whether each rule stands in some path.
    pub fn covers(&self) -> bool {
        for rule in 0..self.problem.rules.len() {
            if !self.is_covered(self.run(rule), NONE) {
                return false;
            }
        }
        true
    }

    /// Adds the path that was found; false where there is no room.
    fn add_found(&mut self) -> bool {
        let weight = self.passes.weight();
        self.spans.add_along(self.passes.path(), weight);
        self.paths.push(self.passes.path(), weight)
    }

    /// Adds the best path through each rule that no path contains, in the order given; false where that takes more than k paths, or the
    /// purse is spent before.
    pub fn cover(&mut self, order: &Names, k: u32, purse: &mut Purse) -> bool {
        for place in 0..order.len() {
            let run = self.run(order.at(place));
            if self.is_covered(run, NONE) {
                continue;
            }
            if purse.is_spent() {
                return false;
            }
            if self.passes.find_through(&self.spans, run, purse) {
                if self.paths.count() >= k || !self.add_found() {
                    return false;
                }
            }
        }
        true
    }

    /// Adds best paths while they lower the error and the purse is not spent, up to k.
    pub fn fill(&mut self, k: u32, purse: &mut Purse) {
        for _ in self.paths.count()..k {
            if purse.is_spent() || !self.passes.find(&self.spans, purse) || !self.add_found() {
                break;
            }
        }
    }

    /// The first run that the old path alone contains, it being path i.
    fn first_alone(&self, i: u32) -> Option<&'a [u32]> {
        for rule in 0..self.problem.rules.len() {
            if self.is_alone(rule, i) {
                return Some(self.run(rule));
            }
        }
        None
    }

    /// Whether the old path alone contains a rule, it being path i.
    fn is_alone(&self, rule: u32, i: u32) -> bool {
        let run = self.run(rule);
        contains(self.old.as_slice(), run) && !self.is_covered(run, i)
    }

    /// Whether the path that was found contains what the old path alone contains.
    fn keeps_alone(&self, i: u32) -> bool {
        for rule in 0..self.problem.rules.len() {
            if self.is_alone(rule, i) && !contains(self.passes.path(), self.run(rule)) {
                return false;
            }
        }
        true
    }

    /// Looks for a better path in the place of path i, whose weight is off the sums; where there is none, no path may be better.
    fn is_improved(&mut self, i: u32, weight: u64, purse: &mut Purse) -> bool {
        let old = self.spans.gain_along(self.old.as_slice(), weight);
        let found = match self.first_alone(i) {
            Some(run) => self.passes.find_through(&self.spans, run, purse),
            None => self.passes.find(&self.spans, purse),
        };
        let gain = if found { self.passes.gain() } else { 0 };
        gain > old && self.keeps_alone(i)
    }

    /// Replaces path i by the best one against the others, if that is better; a path that alone contains a rule stays on one.
    fn improve(&mut self, i: u32, purse: &mut Purse) -> bool {
        let weight = self.paths.weight(i);
        self.old.copy_from(self.paths.path(i));
        self.spans.take_along(self.old.as_slice(), weight);
        let improved = self.is_improved(i, weight, purse);
        if improved {
            let found = self.passes.weight();
            self.spans.add_along(self.passes.path(), found);
            self.paths.put(i, self.passes.path(), found);
        } else {
            self.spans.add_along(self.old.as_slice(), weight);
        }
        improved
    }

    /// Improves all paths in turn until none is improved, or the purse is spent.
    pub fn settle(&mut self, purse: &mut Purse) {
        for _ in 0..SWEEPS {
            let mut improved = false;
            for i in 0..self.paths.count() {
                if purse.is_spent() {
                    return;
                }
                let better = self.improve(i, purse);
                improved = improved || better;
            }
            if !improved {
                break;
            }
        }
    }
}
