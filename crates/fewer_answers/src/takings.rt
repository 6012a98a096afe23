//! Takings: path after path is taken off a flow until nothing is left. Of the numbers that edges have left, the one is taken whose best
//! path empties most edges and leaves most numbers that other edges have too, the heavier the better; or simply the widest path.

use crate::tastes::Taste;
use flow_sweeps::{Means, Rooms, Votes};
use search_rooms::{Amounts, FlowNet, NONE, Names, Paths, Pile};
use std::alloc::{AllocError, Global};

/// What an edge scores that is emptied.
const EMPTY: u64 = 8;

/// Weights are compared in so many bits.
const BITS: u32 = 14;

/// A number that edges have left, and what it counted when it was last looked at.
#[derive(Clone, Copy, Default)]
struct Known {
    weight: u64,
    counts: u64,
}

/// The same with its place among those that are known.
#[derive(Clone, Copy, Default)]
struct Ranked {
    known: Known,
    place: u32,
}

/// Takings, and their answer.
#[derive(Drop)]
pub struct Takings {
    best: Paths,
    rests: Pile<u64>,
    /// From each vertex the best score, or the width, one more than it, and the first edge to it; 0 where there is no path.
    scores: Amounts,
    firsts: Names,
    votes: Votes,
    /// The numbers that edges have left, rising, with what each counted, now and before.
    live: Pile<u64>,
    known: Pile<Known>,
    before: Pile<Known>,
    ranked: Pile<Ranked>,
    /// The weights are shifted by so many bits before they are compared.
    shift: u32,
}

/// From a place on the first of these numbers that is no less than a weight.
fn first_from(numbers: &Pile<Known>, from: u32, weight: u64) -> u32 {
    for place in from..numbers.count() {
        if numbers.at(place).weight >= weight {
            return place;
        }
    }
    numbers.count()
}

impl Takings {
    /// Room for takings.
    pub fn with_room(alloc: Global, rooms: Rooms) -> Result<Takings, AllocError> {
        let edges = rooms.edges as usize;
        let paths = rooms.edges.saturating_add(2);
        Ok(Takings {
            best: Paths::with_room(alloc, paths, rooms.links)?,
            rests: Pile::with_room(alloc, edges)?,
            scores: Amounts::zeros(alloc, rooms.vertices)?,
            firsts: Names::nones(alloc, rooms.vertices)?,
            votes: Votes::with_room(alloc, rooms.edges)?,
            live: Pile::with_room(alloc, edges)?,
            known: Pile::with_room(alloc, edges)?,
            before: Pile::with_room(alloc, edges)?,
            ranked: Pile::with_room(alloc, edges)?,
            shift: 0,
        })
    }

    /// The answer of the latest takings.
    pub fn best(&self) -> &Paths {
        &self.best
    }

    /// Makes an answer of at most so many paths. False where there is none, or the work or the room is used up before.
    pub fn run(&mut self, net: &FlowNet, most: u32, taste: Taste, means: &mut Means) -> bool {
        self.begin(net);
        for number in 0..net.edges().saturating_add(1) {
            means.spend(net.edges());
            let width = self.widest(net);
            if width == 0 {
                return !self.best.is_full();
            }
            if means.are_spent() || number >= most {
                return false;
            }
            if number == 0 {
                self.shift = width.max(1).ilog2().saturating_sub(BITS);
            }
            let weight = self.best_weight(net, width, taste, means);
            self.take(net, weight);
        }
        false
    }

    fn begin(&mut self, net: &FlowNet) {
        self.best.clear();
        self.known.clear();
        self.rests.clear();
        for &flow in net.flows() {
            self.rests.push(flow);
        }
        self.scores.fill_first(net.vertices(), 0);
        self.firsts.fill_first(net.vertices(), NONE);
    }

    /// The weight of the path that is taken; that path is noted in `firsts`.
    fn best_weight(&mut self, net: &FlowNet, width: u64, taste: Taste, means: &mut Means) -> u64 {
        if taste.power > 0 || taste.trust > 0 {
            means.spend(net.edges().saturating_mul(4));
            self.list_rests();
        }
        let mut best = Known {
            weight: width,
            counts: 0,
        };
        let mut last = 0u64;
        if taste.power > 0 {
            self.rank_weights(width);
            (best, last) = self.best_ranked(net, best, taste, means);
        }
        if last != best.weight {
            means.spend(net.edges());
            self.best_from(net, best.weight, taste, means);
        }
        best.weight
    }

    /// The best number of those that are ranked, and the last one that was looked at.
    fn best_ranked(
        &mut self,
        net: &FlowNet,
        width: Known,
        taste: Taste,
        means: &mut Means,
    ) -> (Known, u64) {
        let mut best = width;
        let mut last = 0u64;
        for i in 0..self.ranked.count() {
            let ranked = self.ranked.at(i);
            if ranked.known.counts <= best.counts || means.are_spent() {
                break;
            }
            means.spend(net.edges());
            let weight = ranked.known.weight;
            let score = self.best_from(net, weight, taste, means);
            let known = Known {
                weight,
                counts: self.counts(score, weight, taste),
            };
            self.known.put(ranked.place, known);
            last = weight;
            if known.counts > best.counts {
                best = known;
            }
        }
        (best, last)
    }

    /// A score times a weight to the power of the taste.
    fn counts(&self, score: u64, weight: u64, taste: Taste) -> u64 {
        let heavy = weight.checked_shr(self.shift).unwrap_or(0).max(1);
        let mut counts = score;
        for _ in 0..taste.power {
            counts = counts.saturating_mul(heavy);
        }
        counts
    }

    /// The numbers that edges have left, each once, with what it counted before.
    fn list_rests(&mut self) {
        self.live.clear();
        for &rest in self.rests.as_slice() {
            if rest > 0 {
                self.live.push(rest);
            }
        }
        self.votes.count(self.live.as_slice());
        self.before.copy_from(&self.known);
        self.known.clear();
        let mut next = 0u32;
        for &weight in self.votes.values() {
            next = first_from(&self.before, next, weight);
            let before = self.before.at(next);
            let counts = if before.weight == weight {
                before.counts
            } else {
                u64::MAX
            };
            self.known.push(Known { weight, counts });
        }
    }

    /// Those that are no wider than the widest path, the most promising first.
    fn rank_weights(&mut self, width: u64) {
        self.ranked.clear();
        let mut place = 0u32;
        for &known in self.known.as_slice() {
            if known.weight <= width {
                self.ranked.push(Ranked { known, place });
            }
            place = place.saturating_add(1);
        }
        let ranked = self.ranked.as_mut_slice();
        ranked.sort_unstable_by(|a, b| {
            b.known
                .counts
                .cmp(&a.known.counts)
                .then(b.known.weight.cmp(&a.known.weight))
        });
    }

    /// The width of the widest path.
    fn widest(&mut self, net: &FlowNet) -> u64 {
        self.scores.put(net.sink(), u64::MAX);
        for v in (0..net.sink()).rev() {
            let mut width = 0u64;
            for &e in net.out(v) {
                width = width.max(self.rests.at(e).min(self.scores.at(net.head(e))));
            }
            self.scores.put(v, width);
        }
        self.scores.at(0)
    }

    /// The best paths of a weight from all vertices, and the score of that from the source.
    fn best_from(&mut self, net: &FlowNet, weight: u64, taste: Taste, means: &mut Means) -> u64 {
        self.scores.put(net.sink(), 1);
        for v in (0..net.sink()).rev() {
            self.choose_first(net, v, weight, taste, means);
        }
        self.scores.at(0).saturating_sub(1)
    }

    /// The best path of a weight from one vertex, where those from later ones are known.
    fn choose_first(
        &mut self,
        net: &FlowNet,
        v: u32,
        weight: u64,
        taste: Taste,
        means: &mut Means,
    ) {
        let mut best = 0u64;
        let mut first = NONE;
        for &e in net.out(v) {
            let rest = self.rests.at(e);
            let on = self.scores.at(net.head(e));
            if rest < weight || on == 0 {
                continue;
            }
            let score = on.saturating_add(self.gain(rest.saturating_sub(weight), taste));
            if score > best || (score == best && taste.noise && means.draw(2) == 0) {
                best = score;
                first = e;
            }
        }
        self.scores.put(v, best);
        self.firsts.put(v, first);
    }

    /// What an edge scores of which so much is left.
    fn gain(&self, left: u64, taste: Taste) -> u64 {
        if left == 0 {
            EMPTY
        } else if taste.trust == 0 {
            0
        } else {
            let bits = self.votes.bits(left).saturating_mul(taste.trust) / 8;
            u64::from(bits.min(taste.most))
        }
    }

    /// The noted path is taken.
    fn take(&mut self, net: &FlowNet, weight: u64) {
        let mut v = 0u32;
        for _ in 0..net.vertices() {
            let e = self.firsts.at(v);
            if v == net.sink() || e == NONE {
                break;
            }
            self.best.push(e);
            let rest = self.rests.at(e).saturating_sub(weight);
            self.rests.put(e, rest);
            v = net.head(e);
        }
        self.best.end(weight);
    }
}
