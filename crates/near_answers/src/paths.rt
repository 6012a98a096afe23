//! Weighted paths in a room of a fixed size: so many paths of at most so many edges.

use dag_net::{Answer, Ids};
use search_rooms::{Amounts, Names};
use std::alloc::{AllocError, Global};

/// Weighted paths.
#[derive(Drop)]
pub struct Paths {
    /// The edges of each path, from a multiple of the longest length on.
    edges: Names,
    longest: u32,
    lengths: Names,
    weights: Amounts,
    most: u32,
    count: u32,
}

impl Paths {
    /// Room for so many paths of so many edges, none there.
    pub fn with_room(alloc: Global, most: u32, longest: u32) -> Result<Paths, AllocError> {
        Ok(Paths {
            edges: Names::nones(alloc, most.saturating_mul(longest))?,
            longest,
            lengths: Names::nones(alloc, most)?,
            weights: Amounts::zeros(alloc, most)?,
            most,
            count: 0,
        })
    }

    /// How many paths there are.
    pub fn count(&self) -> u32 {
        self.count
    }

    /// The edges of a path.
    pub fn path(&self, i: u32) -> &[u32] {
        let from = i.saturating_mul(self.longest);
        if i < self.count {
            self.edges
                .part(from, from.saturating_add(self.lengths.at(i)))
        } else {
            &[]
        }
    }

    /// The weight of a path.
    pub fn weight(&self, i: u32) -> u64 {
        self.weights.at(i)
    }

    /// Gives a path another weight.
    pub fn put_weight(&mut self, i: u32, weight: u64) {
        self.weights.put(i, weight);
    }

    /// Puts a path in the place of another.
    pub fn put(&mut self, i: u32, path: &[u32], weight: u64) {
        let mut place = i.saturating_mul(self.longest);
        let mut length = 0u32;
        for &e in path {
            if length < self.longest {
                self.edges.put(place, e);
                place = place.saturating_add(1);
                length = length.saturating_add(1);
            }
        }
        self.lengths.put(i, length);
        self.weights.put(i, weight);
    }

    /// Adds a path, where there is room; false where there is none.
    pub fn push(&mut self, path: &[u32], weight: u64) -> bool {
        if self.count >= self.most {
            return false;
        }
        self.put(self.count, path, weight);
        self.count = self.count.saturating_add(1);
        true
    }

    /// Takes all paths off.
    pub fn clear(&mut self) {
        self.count = 0;
    }

    /// Puts another list's paths in place of its own.
    pub fn copy_from(&mut self, other: &Paths) {
        self.clear();
        for i in 0..other.count {
            let _ = self.push(other.path(i), other.weight(i));
        }
    }

    /// Takes a path out; those behind it move up.
    pub fn take_out(&mut self, i: u32) {
        for k in i..self.count.saturating_sub(1) {
            self.move_up(k);
        }
        if i < self.count {
            self.count = self.count.saturating_sub(1);
        }
    }

    /// Puts the path behind a place into it.
    fn move_up(&mut self, i: u32) {
        let next = i.saturating_add(1);
        let to = i.saturating_mul(self.longest);
        let from = next.saturating_mul(self.longest);
        let length = self.lengths.at(next);
        for k in 0..length.min(self.longest) {
            let e = self.edges.at(from.saturating_add(k));
            self.edges.put(to.saturating_add(k), e);
        }
        self.lengths.put(i, length);
        let weight = self.weights.at(next);
        self.weights.put(i, weight);
    }

    /// The paths as an answer.
    pub fn answer(&self, alloc: Global) -> Result<Answer, AllocError> {
        let mut answer = Answer::new(alloc);
        for i in 0..self.count {
            let weight = self.weight(i);
            if weight >= 1 {
                let mut path = Ids::new(alloc);
                for &e in self.path(i) {
                    path.push(e)?;
                }
                answer.push(path, weight)?;
            }
        }
        Ok(answer)
    }
}

/// Lists the numbers of the paths by their edges, as far as there is room.
fn rank_by_edges(ranks: &mut Vec<u32>, paths: &Paths) {
    ranks.clear();
    for i in 0..paths.count {
        if ranks.len() < ranks.capacity() {
            let _ = ranks.push(i);
        }
    }
    ranks.sort_unstable_by(|&a, &b| paths.path(a).cmp(paths.path(b)));
}

/// Of paths with the same edges gives all weight to the last one.
fn merge(ranks: &[u32], paths: &mut Paths) {
    let mut before = None;
    for &i in ranks {
        if let Some(j) = before {
            if paths.path(i) == paths.path(j) {
                let sum = paths.weight(i).saturating_add(paths.weight(j));
                paths.put_weight(i, sum);
                paths.put_weight(j, 0);
            }
        }
        before = Some(i);
    }
}

/// Puts each path once, with the sum of its weights, into another list, by falling weight and then by rising edges.
pub fn tidy_into(ranks: &mut Vec<u32>, paths: &mut Paths, tidied: &mut Paths) {
    rank_by_edges(ranks, paths);
    merge(ranks, paths);
    let merged = &*paths;
    ranks.sort_unstable_by(|&a, &b| {
        let by_weight = merged.weight(b).cmp(&merged.weight(a));
        by_weight.then(merged.path(a).cmp(merged.path(b)))
    });
    tidied.clear();
    for &i in ranks.as_slice() {
        let weight = merged.weight(i);
        let path = merged.path(i);
        if weight >= 1 && !path.is_empty() {
            let _ = tidied.push(path, weight);
        }
    }
}
