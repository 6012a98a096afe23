//! The paths of an answer, each in a room of its own, so that one can take the place of another.

use search_rooms::{Names, Paths, Pile};
use std::alloc::{AllocError, Global};

/// The paths have at most so many edges in all.
const MOST: u32 = 2097152;

/// Weighted paths.
#[derive(Drop)]
pub struct Walks {
    longest: u32,
    edges: Names,
    lengths: Pile<u32>,
    weights: Pile<u64>,
}

impl Walks {
    /// Room for so many paths, each of at most so many edges, or for fewer paths where that is too much.
    pub fn with_room(alloc: Global, paths: u32, longest: u32) -> Result<Walks, AllocError> {
        let edges = paths.saturating_mul(longest).min(MOST);
        let paths = edges.checked_div(longest).unwrap_or(0) as usize;
        Ok(Walks {
            longest,
            edges: Names::nones(alloc, edges)?,
            lengths: Pile::with_room(alloc, paths)?,
            weights: Pile::with_room(alloc, paths)?,
        })
    }

    /// No paths.
    pub fn clear(&mut self) {
        self.lengths.clear();
        self.weights.clear();
    }

    /// How many paths there are.
    pub fn count(&self) -> u32 {
        self.weights.count()
    }

    /// How many more paths there is room for.
    pub fn room_left(&self) -> usize {
        self.weights.room_left()
    }

    fn begin(&self, path: u32) -> u32 {
        path.saturating_mul(self.longest)
    }

    /// The edges of a path.
    pub fn path(&self, path: u32) -> &[u32] {
        let begin = self.begin(path);
        self.edges
            .part(begin, begin.saturating_add(self.lengths.at(path)))
    }

    /// The weight of a path.
    pub fn weight(&self, path: u32) -> u64 {
        self.weights.at(path)
    }

    /// The weights of all paths.
    pub fn weights(&self) -> &[u64] {
        self.weights.as_slice()
    }

    /// Adds a path.
    pub fn push(&mut self, path: &[u32], weight: u64) {
        let name = self.count();
        self.lengths.push(0);
        self.weights.push(weight);
        for &e in path {
            self.lengthen(name, e);
        }
    }

    /// A path without edges in the place of another.
    pub fn begin_anew(&mut self, path: u32, weight: u64) {
        self.lengths.put(path, 0);
        self.weights.put(path, weight);
    }

    /// A path goes on.
    pub fn lengthen(&mut self, path: u32, e: u32) {
        let length = self.lengths.at(path);
        if length < self.longest {
            let place = self.begin(path).saturating_add(length);
            self.edges.put(place, e);
            self.lengths.put(path, length.saturating_add(1));
        }
    }

    /// Takes a path out; the last one takes its place.
    pub fn take_out(&mut self, path: u32) {
        let last = self.count().saturating_sub(1);
        let from = self.begin(last);
        let to = self.begin(path);
        let length = self.lengths.at(last);
        for i in 0..length {
            let e = self.edges.at(from.saturating_add(i));
            self.edges.put(to.saturating_add(i), e);
        }
        let weight = self.weights.at(last);
        self.lengths.put(path, length);
        self.weights.put(path, weight);
        self.lengths.pop();
        self.weights.pop();
    }

    /// Writes the paths.
    pub fn write(&self, answer: &mut Paths) {
        answer.clear();
        for i in 0..self.count() {
            for &e in self.path(i) {
                answer.push(e);
            }
            answer.end(self.weight(i));
        }
    }
}
