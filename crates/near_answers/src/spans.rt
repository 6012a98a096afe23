//! The range of each edge and the sum of the paths on it, with what a path brings: by how much it lowers the error.

use flow_models::Problem;
use std::alloc::{AllocError, Global};

/// The range of an edge and the sum on it.
#[derive(Clone, Copy)]
struct Span {
    lo: u64,
    hi: u64,
    sum: u64,
}

/// The ranges and sums of all edges.
#[derive(Drop)]
pub struct Spans {
    items: Vec<Span>,
}

/// How far a sum lies outside a range.
#[inline(always)]
fn outside(span: Span) -> u64 {
    let below = span.lo.saturating_sub(span.sum);
    let above = span.sum.saturating_sub(span.hi);
    below.max(above)
}

/// By how much the error of an edge falls where a weight is added.
#[inline(always)]
fn gain(span: Span, weight: u64) -> i64 {
    let sum = span.sum.saturating_add(weight);
    let before = i64::try_from(outside(span)).unwrap_or(i64::MAX);
    let after = i64::try_from(outside(Span { sum, ..span })).unwrap_or(i64::MAX);
    before.saturating_sub(after)
}

impl Spans {
    /// The ranges of a problem, with nothing on the edges.
    pub fn of(alloc: Global, problem: &Problem) -> Result<Spans, AllocError> {
        let ranges = problem.ranges.as_slice();
        let mut items = Vec::with_capacity(alloc, ranges.len())?;
        for range in ranges {
            let span = Span {
                lo: range.lo,
                hi: range.hi,
                sum: 0,
            };
            items.push(span)?;
        }
        Ok(Spans { items })
    }

    /// Takes everything off the edges.
    pub fn clear(&mut self) {
        for span in &mut self.items {
            span.sum = 0;
        }
    }

    /// Adds a weight on each edge of a path.
    pub fn add_along(&mut self, path: &[u32], weight: u64) {
        for &e in path {
            let e = e as usize;
            if e < self.items.len() {
                let sum = self.items[e].sum.saturating_add(weight);
                self.items[e].sum = sum;
            }
        }
    }

    /// Takes a weight off each edge of a path.
    pub fn take_along(&mut self, path: &[u32], weight: u64) {
        for &e in path {
            let e = e as usize;
            if e < self.items.len() {
                let sum = self.items[e].sum.saturating_sub(weight);
                self.items[e].sum = sum;
            }
        }
    }

    /// By how much the error of an edge falls where a weight is added.
    #[inline(always)]
    pub fn gain_on(&self, e: u32, weight: u64) -> i64 {
        let e = e as usize;
        if e < self.items.len() {
            gain(self.items[e], weight)
        } else {
            0
        }
    }

    /// By how much the error falls where a weight is added along a path.
    pub fn gain_along(&self, path: &[u32], weight: u64) -> i64 {
        let mut sum = 0i64;
        for &e in path {
            sum = sum.saturating_add(self.gain_on(e, weight));
        }
        sum
    }

    /// The sum over all edges of how far they lie outside their ranges.
    pub fn error(&self) -> u64 {
        let mut error = 0u64;
        for span in &self.items {
            error = error.saturating_add(outside(*span));
        }
        error
    }

    /// Lists the weights that bring some edge to an end of its range, rising, each once; with 1 where that is wanted.
    pub fn list_weights(&self, with_one: bool, weights: &mut Vec<u64>) {
        weights.clear();
        for span in &self.items {
            add_weight(weights, span.lo.saturating_sub(span.sum));
            add_weight(weights, span.hi.saturating_sub(span.sum));
        }
        if with_one {
            add_weight(weights, 1);
        }
        weights.sort_unstable();
        weights.dedup();
    }
}

/// Adds a weight of at least 1, where there is room.
fn add_weight(weights: &mut Vec<u64>, weight: u64) {
    if weight > 0 && weights.len() < weights.capacity() {
        let _ = weights.push(weight);
    }
}
