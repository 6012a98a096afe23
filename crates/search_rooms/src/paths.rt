//! Paths side by side in one list, with their weights.

use crate::pile::Pile;
use std::alloc::{AllocError, Global};

/// Weighted paths in a room that is asked for once.
#[derive(Drop)]
pub struct Paths {
    edges: Pile<u32>,
    ends: Pile<u32>,
    weights: Pile<u64>,
}

impl Paths {
    /// Room for so many paths, of so many edges in all.
    pub fn with_room(alloc: Global, paths: u32, edges: u32) -> Result<Paths, AllocError> {
        Ok(Paths {
            edges: Pile::with_room(alloc, edges as usize)?,
            ends: Pile::with_room(alloc, paths as usize)?,
            weights: Pile::with_room(alloc, paths as usize)?,
        })
    }

    /// No paths.
    pub fn clear(&mut self) {
        self.edges.clear();
        self.ends.clear();
        self.weights.clear();
    }

    /// How many paths there are.
    pub fn count(&self) -> u32 {
        self.weights.count()
    }

    /// Whether some room is used up, so that something may have been dropped.
    pub fn is_full(&self) -> bool {
        self.edges.is_full() || self.weights.is_full()
    }

    fn begin(&self, i: u32) -> u32 {
        if i == 0 {
            0
        } else {
            self.ends.at(i.saturating_sub(1))
        }
    }

    /// The edges of path i.
    pub fn path(&self, i: u32) -> &[u32] {
        self.edges.part(self.begin(i), self.ends.at(i))
    }

    /// The weight of path i.
    pub fn weight(&self, i: u32) -> u64 {
        self.weights.at(i)
    }

    /// Goes on with the path that is not ended yet.
    #[inline(always)]
    pub fn push(&mut self, e: u32) {
        self.edges.push(e);
    }

    /// Turns the edges of the path that is not ended yet, from a number of edges on.
    pub fn turn(&mut self, from: u32) {
        let begin = self.begin(self.count());
        self.edges.reverse_from(begin.saturating_add(from));
    }

    /// The number of edges of the path that is not ended yet.
    pub fn begun(&self) -> u32 {
        self.edges.count().saturating_sub(self.begin(self.count()))
    }

    /// Ends a path.
    pub fn end(&mut self, weight: u64) {
        let end = self.edges.count();
        self.ends.push(end);
        self.weights.push(weight);
    }

    /// A copy of other paths in the place of its own.
    pub fn copy_from(&mut self, other: &Paths) {
        self.edges.copy_from(&other.edges);
        self.ends.copy_from(&other.ends);
        self.weights.copy_from(&other.weights);
    }

    /// The first path before path i that is equal to it, or i.
    fn first_equal(&self, i: u32) -> u32 {
        for j in 0..i {
            if self.path(i) == self.path(j) {
                return j;
            }
        }
        i
    }

    /// The weight of each path but the first of equal ones goes to that one; such a path has weight 0 then.
    pub fn merge_equal(&mut self) {
        for i in 1..self.count() {
            let j = self.first_equal(i);
            if j < i {
                let sum = self.weight(j).saturating_add(self.weight(i));
                self.weights.put(j, sum);
                self.weights.put(i, 0);
            }
        }
    }
}
