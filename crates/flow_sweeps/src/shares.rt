//! Shares: parts of given weights are put into bins of given flows, exactly where that is possible; else parts are cut in two.
//!
//! Where to cut is voted for: a good cut leaves two numbers that are the flows of many edges. Where looking for cuts has cost too much,
//! the parts are poured into the bins as they come.

use crate::exact_shares::ExactShare;
use crate::loads::{Cut, Given, Load};
use crate::means::Means;
use crate::pieces::Pieces;
use crate::votes::Votes;
use search_rooms::{NONE, Pile, Purse};
use std::alloc::{AllocError, Global};

/// The score of a bin that whole parts fill, and what a cut gains where no other part goes with it. Noise adds less than so much.
const WHOLE: u32 = 27;

const ALONE: u32 = 3;

const NOISE: u32 = 6;

/// An answer may cost so many visits before the parts are poured.
const PATIENCE: u64 = 16777216;

/// Which part is cut for which bin, to what weight, and which other part goes with it, or none.
#[derive(Clone, Copy)]
struct Choice {
    score: u32,
    bin: u32,
    part: u32,
    weight: u64,
    with: u32,
}

/// What a bin lacks beside another part, or none.
#[derive(Clone, Copy)]
struct Wanted {
    bin: u32,
    lacks: u64,
    with: u32,
}

/// Parts and bins of equal sums, and how they were shared.
#[derive(Drop)]
pub struct Shares {
    votes: Votes,
    noise: bool,
    parts: Pile<Load>,
    bins: Pile<Load>,
    given: Pile<Given>,
    cuts: Pile<Cut>,
    exact: ExactShare,
    /// What looking for cuts may still cost for the present answer.
    patience: Purse,
}

impl Shares {
    /// Room for flows of so many edges, and so many parts, bins and cuts.
    pub fn with_room(alloc: Global, edges: u32, parts: u32) -> Result<Shares, AllocError> {
        let room = parts as usize;
        Ok(Shares {
            votes: Votes::with_room(alloc, edges)?,
            noise: false,
            parts: Pile::with_room(alloc, room)?,
            bins: Pile::with_room(alloc, room)?,
            given: Pile::with_room(alloc, room)?,
            cuts: Pile::with_room(alloc, room)?,
            exact: ExactShare::with_room(alloc, parts)?,
            patience: Purse::of(PATIENCE),
        })
    }

    /// What the flows of a net vote for, and whether lots are drawn beside.
    pub fn begin(&mut self, flows: &[u64], noise: bool) {
        self.votes.count(flows);
        self.noise = noise;
    }

    /// Another answer is made: no cut was made, and none was looked for.
    pub fn begin_answer(&mut self) {
        self.cuts.clear();
        self.patience = Purse::of(PATIENCE);
    }

    fn spend(&mut self, visits: u32, means: &mut Means) {
        means.spend(visits);
        self.patience.spend(u64::from(visits));
    }

    /// No parts and no bins.
    pub fn clear(&mut self) {
        self.parts.clear();
        self.bins.clear();
        self.given.clear();
    }

    /// Adds a piece that is to be shared out.
    pub fn add_part(&mut self, weight: u64, piece: u32) {
        self.parts.push(Load {
            weight,
            name: piece,
        });
    }

    /// Adds a bin that is to be filled.
    pub fn add_bin(&mut self, weight: u64, name: u32) {
        self.bins.push(Load { weight, name });
    }

    /// The bin of each piece.
    pub fn given(&self) -> &[Given] {
        self.given.as_slice()
    }

    /// The cuts that were made for the present answer.
    pub fn cuts(&mut self) -> &mut Pile<Cut> {
        &mut self.cuts
    }

    /// How many parts are to be shared out.
    pub fn parts(&self) -> u32 {
        self.parts.count()
    }

    /// Puts each part into a bin. Each turn takes a bin or a part away, and makes at most one part for each bin.
    pub fn share(&mut self, pieces: &mut Pieces, means: &mut Means) {
        self.order_bins(means);
        for _ in 0..self.most_turns() {
            if self.bins.count() <= 1 {
                break;
            }
            self.order_parts();
            if self.patience.is_spent() {
                self.pour(pieces);
                return;
            }
            if self.parts.count() >= self.bins.count() && self.share_exactly(means) {
                return;
            }
            self.fill_one(pieces, means);
        }
        let bin = self.bins.at(0).name;
        for &part in self.parts.as_slice() {
            self.given.push(Given {
                bin,
                piece: part.name,
            });
        }
    }

    fn most_turns(&self) -> u32 {
        self.bins
            .count()
            .saturating_mul(2)
            .saturating_add(self.parts.count())
    }

    /// Bins by rising flow, or by lot.
    fn order_bins(&mut self, means: &mut Means) {
        if self.noise {
            for i in (1..self.bins.count()).rev() {
                let other = means.draw(i.saturating_add(1));
                self.bins.swap(i, other);
            }
        } else {
            let bins = self.bins.as_mut_slice();
            bins.sort_unstable_by(|a, b| a.weight.cmp(&b.weight).then(a.name.cmp(&b.name)));
        }
    }

    /// Parts by falling weight.
    fn order_parts(&mut self) {
        let parts = self.parts.as_mut_slice();
        parts.sort_unstable_by(|a, b| b.weight.cmp(&a.weight).then(a.name.cmp(&b.name)));
    }

    /// Fills bin after bin with the parts as they come; a part that is too great for what its bin lacks is cut.
    fn pour(&mut self, pieces: &mut Pieces) {
        let last = self.bins.count().saturating_sub(1);
        let mut place = 0u32;
        for _ in 0..self.most_turns() {
            let Some(part) = self.parts.pop() else {
                break;
            };
            let bin = self.bins.at(place);
            if place >= last || part.weight <= bin.weight {
                self.pour_whole(place, part);
            } else {
                self.pour_some(place, part, pieces);
                place = place.saturating_add(1);
            }
        }
    }

    /// The part goes into the bin, which lacks so much less.
    fn pour_whole(&mut self, place: u32, part: Load) {
        let bin = self.bins.at(place);
        let weight = bin.weight.saturating_sub(part.weight);
        self.bins.put(place, Load { weight, ..bin });
        self.given.push(Given {
            bin: bin.name,
            piece: part.name,
        });
    }

    /// The bin takes of the part what it lacks.
    fn pour_some(&mut self, place: u32, part: Load, pieces: &mut Pieces) {
        let bin = self.bins.at(place);
        if bin.weight == 0 {
            self.parts.push(part);
            return;
        }
        let off = part.weight.saturating_sub(bin.weight);
        let new = pieces.cut(part.name, off);
        self.given.push(Given {
            bin: bin.name,
            piece: part.name,
        });
        self.add_part(off, new);
    }

    fn share_exactly(&mut self, means: &mut Means) -> bool {
        let (found, steps) = self.exact.find(self.parts.as_slice(), self.bins.as_slice());
        self.spend(steps, means);
        if found {
            self.write_share();
        }
        found
    }

    fn write_share(&mut self) {
        let last = self.bins.count().saturating_sub(1);
        let mut place = 0u32;
        for &part in self.parts.as_slice() {
            let bin = self.exact.bin_of(place);
            let bin = if bin == NONE { last } else { bin };
            self.given.push(Given {
                bin: self.bins.at(bin).name,
                piece: part.name,
            });
            place = place.saturating_add(1);
        }
    }

    /// One bin is filled, by one part if that is possible, else by the best cut; or the greatest part goes into the widest bin.
    fn fill_one(&mut self, pieces: &mut Pieces, means: &mut Means) {
        let looks = self.parts.count().saturating_mul(self.bins.count());
        self.spend(looks, means);
        if let Some((bin, part)) = self.filled_by_one() {
            self.put_into(bin, part);
            self.bins.take_out(bin);
            return;
        }
        let Some(choice) = self.best_cut(means) else {
            self.put_greatest();
            return;
        };
        self.cut_part(choice, pieces);
        if choice.with == NONE {
            self.put_into(choice.bin, choice.part);
        } else {
            self.put_into(choice.bin, choice.part.max(choice.with));
            self.put_into(choice.bin, choice.part.min(choice.with));
        }
        self.bins.take_out(choice.bin);
    }

    /// Cuts the chosen part, where it is too great.
    fn cut_part(&mut self, choice: Choice, pieces: &mut Pieces) {
        let part = self.parts.at(choice.part);
        if choice.weight >= part.weight {
            return;
        }
        let off = part.weight.saturating_sub(choice.weight);
        let new = pieces.cut(part.name, off);
        self.cuts.push(Cut {
            root: pieces.root(part.name),
            weight: part.weight,
            off,
            score: choice.score,
        });
        self.parts.put(
            choice.part,
            Load {
                weight: choice.weight,
                name: part.name,
            },
        );
        self.add_part(off, new);
    }

    fn put_into(&mut self, bin: u32, part: u32) {
        let bin = self.bins.at(bin).name;
        let piece = self.parts.at(part).name;
        self.given.push(Given { bin, piece });
        self.parts.take_out(part);
    }

    /// The first bin that one part fills, and that part.
    fn filled_by_one(&self) -> Option<(u32, u32)> {
        let mut place = 0u32;
        for bin in self.bins.as_slice() {
            if let Some(part) = self.part_of(bin.weight) {
                return Some((place, part));
            }
            place = place.saturating_add(1);
        }
        None
    }

    /// The first part of a weight.
    fn part_of(&self, weight: u64) -> Option<u32> {
        let mut place = 0u32;
        for part in self.parts.as_slice() {
            if part.weight <= weight {
                return if part.weight == weight {
                    Some(place)
                } else {
                    None
                };
            }
            place = place.saturating_add(1);
        }
        None
    }

    /// Every part is too small to fill a bin with one other one: the greatest goes into the last one of the widest bins.
    fn put_greatest(&mut self) {
        let mut bin = 0u32;
        for i in 0..self.bins.count() {
            if self.bins.at(i).weight >= self.bins.at(bin).weight {
                bin = i;
            }
        }
        let wide = self.bins.at(bin);
        let weight = wide.weight.saturating_sub(self.parts.at(0).weight);
        if !self.parts.is_empty() {
            self.put_into(bin, 0);
        }
        self.bins.put(bin, Load { weight, ..wide });
    }

    /// The cut of the greatest score, for any bin, alone or beside one other part.
    fn best_cut(&mut self, means: &mut Means) -> Option<Choice> {
        let mut best = None;
        for bin in 0..self.bins.count() {
            let flow = self.bins.at(bin).weight;
            let alone = Wanted {
                bin,
                lacks: flow,
                with: NONE,
            };
            best = self.best_for(alone, best, means);
            best = self.best_beside(bin, flow, best, means);
        }
        best
    }

    /// The same for one bin beside each other part, as long as there is patience.
    fn best_beside(
        &mut self,
        bin: u32,
        flow: u64,
        best: Option<Choice>,
        means: &mut Means,
    ) -> Option<Choice> {
        let mut best = best;
        let mut before = 0u64;
        for with in 0..self.parts.count() {
            if self.patience.is_spent() {
                break;
            }
            let weight = self.parts.at(with).weight;
            if weight < flow && weight != before {
                let lacks = flow.saturating_sub(weight);
                best = self.best_for(Wanted { bin, lacks, with }, best, means);
            }
            before = weight;
        }
        best
    }

    /// The same for what one bin lacks. The parts are sorted: those that are great enough come first, equal ones side by side.
    fn best_for(
        &mut self,
        wanted: Wanted,
        best: Option<Choice>,
        means: &mut Means,
    ) -> Option<Choice> {
        let bits = self.votes.bits(wanted.lacks);
        let mut best = best;
        let mut before = 0u64;
        let mut looks = 1u32;
        let mut part = 0u32;
        for load in self.parts.as_slice() {
            if load.weight < wanted.lacks {
                break;
            }
            if load.weight != before && wanted.with != part {
                before = load.weight;
                looks = looks.saturating_add(1);
                let score = self.score(load.weight, wanted, bits, means);
                best = better(best, score, part, wanted);
            }
            part = part.saturating_add(1);
        }
        self.spend(looks, means);
        best
    }

    /// The score of a cut of a weight.
    fn score(&self, weight: u64, wanted: Wanted, bits: u32, means: &mut Means) -> u32 {
        let mut score = WHOLE;
        if weight > wanted.lacks {
            let rest = self.votes.bits(weight.saturating_sub(wanted.lacks));
            let sum = bits.saturating_add(rest).saturating_mul(2);
            score = if wanted.with == NONE {
                sum.saturating_add(ALONE)
            } else {
                sum
            };
        }
        if self.noise {
            score = score.saturating_add(means.draw(NOISE));
        }
        score
    }
}

/// The earlier choice, or the new one where it is better.
fn better(best: Option<Choice>, score: u32, part: u32, wanted: Wanted) -> Option<Choice> {
    if let Some(choice) = best {
        if choice.score >= score {
            return best;
        }
    }
    Some(Choice {
        score,
        bin: wanted.bin,
        part,
        weight: wanted.lacks,
        with: wanted.with,
    })
}
