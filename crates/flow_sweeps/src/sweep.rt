//! Sweeps: routing with cuts. Parts start at the edges of a cut of the net and are shared out vertex by vertex, on to the sink and,
//! apart from that, back to the source; then the pieces of both halves are joined. So there is always an answer.
//!
//! A cut that was made under way may be made at the start instead, so that both halves know it; it stays where that costs no path.

use crate::halves::Half;
use crate::loads::{Cut, Load};
use crate::means::Means;
use crate::rooms::{MOST_ROUNDS, Rooms};
use crate::shares::Shares;
use search_rooms::{FlowNet, Paths, Pile};
use std::alloc::{AllocError, Global};
use std::mem;

/// How a sweep is made: it may stop at so many paths, and so many cuts are tried at the start.
#[derive(Clone, Copy)]
pub struct How {
    pub lower: u32,
    pub rounds: u32,
    pub noise: bool,
}

/// A cut that was tried at the start: the edge, the weight of the part that was cut, and the smaller one of what was left.
#[derive(Clone, Copy)]
struct Tried {
    edge: u32,
    weight: u64,
    less: u64,
}

fn less_of(cut: Cut) -> u64 {
    cut.off.min(cut.weight.saturating_sub(cut.off))
}

/// A sweep, and its answer.
#[derive(Drop)]
pub struct Sweep {
    best: Paths,
    attempt: Paths,
    on: Half,
    back: Half,
    shares: Shares,
    /// The initial parts, each a weight and its edge of the cut; those of one edge sum to its flow.
    parts: Pile<Load>,
    cuts: Pile<Cut>,
    tried: Pile<Tried>,
}

impl Sweep {
    /// Room for sweeps.
    pub fn with_room(alloc: Global, rooms: Rooms) -> Result<Sweep, AllocError> {
        let pieces = rooms.pieces as usize;
        Ok(Sweep {
            best: Paths::with_room(alloc, rooms.pieces, rooms.links)?,
            attempt: Paths::with_room(alloc, rooms.pieces, rooms.links)?,
            on: Half::with_room(alloc, rooms, true)?,
            back: Half::with_room(alloc, rooms, false)?,
            shares: Shares::with_room(alloc, rooms.edges, rooms.pieces)?,
            parts: Pile::with_room(alloc, rooms.parts as usize)?,
            cuts: Pile::with_room(alloc, pieces)?,
            tried: Pile::with_room(alloc, MOST_ROUNDS as usize)?,
        })
    }

    /// The answer of the latest sweep that came to one.
    pub fn best(&self) -> &Paths {
        &self.best
    }

    /// Makes an answer from a cut of the net, its edges apart. False where the room is used up.
    pub fn run(&mut self, net: &FlowNet, cut: &[u32], how: How, means: &mut Means) -> bool {
        self.shares.begin(net.flows(), how.noise);
        means.spend(net.edges());
        self.parts.clear();
        for &e in cut {
            self.parts.push(Load {
                weight: net.flow(e),
                name: e,
            });
        }
        self.tried.clear();
        if !self.both(net, u32::MAX, means) {
            return false;
        }
        mem::swap(&mut self.best, &mut self.attempt);
        mem::swap(&mut self.cuts, self.shares.cuts());
        self.cut_at_start(net, how, means);
        true
    }

    /// Tries cuts at the start, one after another, and keeps those that cost no path.
    fn cut_at_start(&mut self, net: &FlowNet, how: How, means: &mut Means) {
        let mut present = self.best.count();
        for _ in 0..how.rounds.min(MOST_ROUNDS) {
            if means.are_spent() || self.best.count() <= how.lower {
                break;
            }
            means.spend(self.cuts.count());
            let Some(cut) = self.best_cut() else {
                break;
            };
            self.make(cut);
            if self.both(net, present, means) && self.attempt.count() <= present {
                present = self.attempt.count();
                self.keep();
            } else {
                self.unmake(cut);
            }
        }
    }

    /// Makes a cut at the start.
    fn make(&mut self, cut: Cut) {
        let edge = self.parts.at(cut.root).name;
        self.tried.push(Tried {
            edge,
            weight: cut.weight,
            less: less_of(cut),
        });
        self.parts.put(
            cut.root,
            Load {
                weight: cut.weight.saturating_sub(cut.off),
                name: edge,
            },
        );
        self.parts.push(Load {
            weight: cut.off,
            name: edge,
        });
    }

    /// Takes the latest cut at the start back.
    fn unmake(&mut self, cut: Cut) {
        let part = self.parts.at(cut.root);
        self.parts.pop();
        self.parts.put(
            cut.root,
            Load {
                weight: cut.weight,
                name: part.name,
            },
        );
    }

    /// The attempt counts from now on, and is the answer where it is better.
    fn keep(&mut self) {
        mem::swap(&mut self.cuts, self.shares.cuts());
        if self.attempt.count() < self.best.count() {
            mem::swap(&mut self.best, &mut self.attempt);
        }
    }

    fn was_tried(&self, edge: u32, cut: Cut) -> bool {
        let less = less_of(cut);
        for tried in self.tried.as_slice() {
            if tried.edge == edge && tried.weight == cut.weight && tried.less == less {
                return true;
            }
        }
        false
    }

    /// Of the cuts of whole initial parts that were not tried yet, the one of the greatest score.
    fn best_cut(&self) -> Option<Cut> {
        let mut best: Option<Cut> = None;
        for &cut in self.cuts.as_slice() {
            let part = self.parts.at(cut.root);
            let least = match best {
                Some(best) => best.score.saturating_add(1),
                None => 0,
            };
            if part.weight == cut.weight && cut.score >= least && !self.was_tried(part.name, cut) {
                best = Some(cut);
            }
        }
        best
    }

    /// Both halves and their pieces joined, if there are at most so many of them.
    fn both(&mut self, net: &FlowNet, most: u32, means: &mut Means) -> bool {
        self.shares.begin_answer();
        self.attempt.clear();
        let parts = self.parts.as_slice();
        if !self.on.run(net, parts, most, &mut self.shares, means) {
            return false;
        }
        if !self.back.run(net, parts, most, &mut self.shares, means) {
            return false;
        }
        self.join(means);
        !self.attempt.is_full()
    }

    /// Joins the pieces of both halves, part by part. The cuts that this takes do not count.
    fn join(&mut self, means: &mut Means) {
        let made = self.shares.cuts().len();
        self.on.list_by_part(self.parts.count());
        self.back.list_by_part(self.parts.count());
        let mut root = 0u32;
        for part in self.parts.as_slice() {
            self.back.join(
                &self.on,
                root,
                part.name,
                &mut self.shares,
                &mut self.attempt,
                means,
            );
            root = root.saturating_add(1);
        }
        self.shares.cuts().truncate(made);
    }
}
