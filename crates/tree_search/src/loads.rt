//! What a box puts on each edge: the sum of the least weights of the slots that have it, and of the greatest weights of those that may.
//! Beside them the gap is kept: by how much these sums must lie outside the ranges of the edges, over all edges.

use flow_models::Problem;
use std::alloc::{AllocError, Global};

/// The range of an edge, and its two sums.
#[derive(Clone, Copy)]
struct Load {
    lo: u64,
    hi: u64,
    low: u64,
    high: u64,
}

/// The loads of all edges, and the gap.
#[derive(Drop)]
pub struct Loads {
    items: Vec<Load>,
    gap: u128,
}

/// What an edge adds to the gap.
#[inline(always)]
fn excess(load: Load) -> u64 {
    let above = load.low.saturating_sub(load.hi);
    let below = load.lo.saturating_sub(load.high);
    above.max(below)
}

/// A sum in which one weight stands in place of another.
#[inline(always)]
fn moved(sum: u64, old: u64, new: u64) -> u64 {
    sum.saturating_sub(old).saturating_add(new)
}

impl Loads {
    /// The loads where no slot has an edge, and all slots together may give each edge so much.
    pub fn of(alloc: Global, problem: &Problem, all: u64) -> Result<Loads, AllocError> {
        let ranges = problem.ranges.as_slice();
        let mut items = Vec::with_capacity(alloc, ranges.len())?;
        let mut gap = 0u128;
        for range in ranges {
            let load = Load {
                lo: range.lo,
                hi: range.hi,
                low: 0,
                high: all,
            };
            gap = gap.saturating_add(u128::from(excess(load)));
            items.push(load)?;
        }
        Ok(Loads { items, gap })
    }

    /// By how much the sums must lie outside the ranges.
    pub fn gap(&self) -> u128 {
        self.gap
    }

    /// Puts one least weight in place of another on an edge.
    #[inline(always)]
    pub fn move_low(&mut self, e: u32, old: u64, new: u64) {
        let e = e as usize;
        if e < self.items.len() {
            let load = self.items[e];
            let low = moved(load.low, old, new);
            self.items[e].low = low;
            self.regard(excess(load), excess(Load { low, ..load }));
        }
    }

    /// Puts one greatest weight in place of another on an edge.
    #[inline(always)]
    pub fn move_high(&mut self, e: u32, old: u64, new: u64) {
        let e = e as usize;
        if e < self.items.len() {
            let load = self.items[e];
            let high = moved(load.high, old, new);
            self.items[e].high = high;
            self.regard(excess(load), excess(Load { high, ..load }));
        }
    }

    /// Keeps the gap where what an edge adds has changed.
    #[inline(always)]
    fn regard(&mut self, before: u64, after: u64) {
        if before != after {
            self.gap = self
                .gap
                .saturating_sub(u128::from(before))
                .saturating_add(u128::from(after));
        }
    }
}
