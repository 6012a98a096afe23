//! Sets of edges side by side, by one bit for each edge.

use std::alloc::{AllocError, Global};

/// So many sets of edges.
#[derive(Drop)]
pub struct EdgeSets {
    words: Vec<u64>,
    /// So many words are one set.
    wide: usize,
}

impl EdgeSets {
    /// So many empty sets, with room for so many edges each.
    pub fn empty(alloc: Global, sets: u32, edges: u32) -> Result<EdgeSets, AllocError> {
        let wide = (edges as usize / 64).saturating_add(1);
        let count = (sets as usize).saturating_mul(wide);
        let words = vec![in alloc; 0; count]?;
        Ok(EdgeSets { words, wide })
    }

    /// The words of a set, the edges 0 to 63 in the first.
    pub fn words(&self, set: u32) -> &[u64] {
        let from = (set as usize).saturating_mul(self.wide);
        let to = from.saturating_add(self.wide);
        if from <= to && to <= self.words.len() {
            &self.words[from..to]
        } else {
            &[]
        }
    }

    /// Puts an edge into a set.
    pub fn put(&mut self, set: u32, e: u32) {
        let from = (set as usize).saturating_mul(self.wide);
        let at = from.saturating_add(e as usize / 64);
        if at < self.words.len() {
            self.words[at] |= 1 << (e % 64);
        }
    }

    /// Puts the edges of another set into a set.
    pub fn add_all(&mut self, set: u32, other: u32) {
        let to = (set as usize).saturating_mul(self.wide);
        let from = (other as usize).saturating_mul(self.wide);
        for k in 0..self.wide {
            let more = self.words.get(from.saturating_add(k)).copied().unwrap_or(0);
            let at = to.saturating_add(k);
            if at < self.words.len() {
                self.words[at] |= more;
            }
        }
    }

    /// How many edges are in a set.
    pub fn count(&self, set: u32) -> u32 {
        let mut count = 0u32;
        for &word in self.words(set) {
            count = count.saturating_add(word.count_ones());
        }
        count
    }
}
