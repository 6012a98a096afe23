//! Shares without a cut: each bin but the last takes parts by falling weight, depth first, and the last one has the rest.

use crate::loads::Load;
use search_rooms::{NONE, Names, Pile};
use std::alloc::{AllocError, Global};

/// A share is looked for in so many steps.
const STEPS: u32 = 400;

/// The bin that is filled, the next part to look at, and what the bin still lacks.
#[derive(Clone, Copy)]
struct Turn {
    bin: u32,
    part: u32,
    lacks: u64,
}

/// A share that is looked for.
#[derive(Drop)]
pub struct ExactShare {
    /// The bin of each part, or none.
    given: Names,
    taken: Pile<u32>,
}

/// The first part behind a place that has another weight.
fn next_lighter(parts: &[Load], from: u32, weight: u64) -> u32 {
    let mut next = from.saturating_add(1);
    for part in parts.iter().skip(next as usize) {
        if part.weight != weight {
            break;
        }
        next = next.saturating_add(1);
    }
    next
}

fn weight_at(loads: &[Load], i: u32) -> u64 {
    match loads.get(i as usize) {
        Some(load) => load.weight,
        None => 0,
    }
}

impl ExactShare {
    /// Room for so many parts.
    pub fn with_room(alloc: Global, parts: u32) -> Result<ExactShare, AllocError> {
        Ok(ExactShare {
            given: Names::nones(alloc, parts)?,
            taken: Pile::with_room(alloc, parts as usize)?,
        })
    }

    /// The bin of a part in the share that was found; none: the last one.
    pub fn bin_of(&self, part: u32) -> u32 {
        self.given.at(part)
    }

    /// Looks for a share of parts, by falling weight, to at least two bins. Whether there is one, and the steps that were made.
    pub fn find(&mut self, parts: &[Load], bins: &[Load]) -> (bool, u32) {
        let count = u32::try_from(parts.len()).unwrap_or(NONE);
        self.given.fill_first(count, NONE);
        self.taken.clear();
        let mut turn = Turn {
            bin: 0,
            part: 0,
            lacks: weight_at(bins, 0),
        };
        for step in 0..STEPS {
            if let Some(found) = self.step(parts, bins, &mut turn) {
                return (found, step);
            }
        }
        (false, STEPS)
    }

    /// One step: whether there is a share; none where the work goes on.
    fn step(&mut self, parts: &[Load], bins: &[Load], turn: &mut Turn) -> Option<bool> {
        if turn.lacks == 0 {
            turn.bin = turn.bin.saturating_add(1);
            turn.part = 0;
            turn.lacks = weight_at(bins, turn.bin);
            let after = turn.bin.saturating_add(1);
            return if after as usize >= bins.len() {
                Some(true)
            } else {
                None
            };
        }
        let part = self.next_free(parts, turn.part, turn.lacks);
        if (part as usize) < parts.len() {
            self.given.put(part, turn.bin);
            self.taken.push(part);
            turn.lacks = turn.lacks.saturating_sub(weight_at(parts, part));
            turn.part = part.saturating_add(1);
            return None;
        }
        if self.give_back(parts, turn) {
            None
        } else {
            Some(false)
        }
    }

    /// Leaves out the part that was taken last; false where there is none.
    fn give_back(&mut self, parts: &[Load], turn: &mut Turn) -> bool {
        let Some(back) = self.taken.pop() else {
            return false;
        };
        let weight = weight_at(parts, back);
        let bin = self.given.at(back);
        if bin != turn.bin {
            turn.bin = bin;
            turn.lacks = 0;
        }
        self.given.put(back, NONE);
        turn.lacks = turn.lacks.saturating_add(weight);
        turn.part = next_lighter(parts, back, weight);
        true
    }

    /// The first part from a place on that is free and fits.
    fn next_free(&self, parts: &[Load], from: u32, lacks: u64) -> u32 {
        let mut next = from;
        for part in parts.iter().skip(from as usize) {
            if part.weight <= lacks && self.given.at(next) == NONE {
                break;
            }
            next = next.saturating_add(1);
        }
        next
    }
}
