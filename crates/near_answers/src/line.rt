//! The edges of one path, in a room of a fixed size.

use std::alloc::{AllocError, Global};

/// A list of edges. What is added where no room is left is dropped.
#[derive(Drop)]
pub struct Line {
    edges: Vec<u32>,
}

impl Line {
    /// Room for so many edges, none there.
    pub fn with_room(alloc: Global, room: usize) -> Result<Line, AllocError> {
        let edges = Vec::with_capacity(alloc, room)?;
        Ok(Line { edges })
    }

    /// The edges as a slice.
    pub fn as_slice(&self) -> &[u32] {
        self.edges.as_slice()
    }

    /// Adds an edge at the end, where there is room.
    pub fn push(&mut self, e: u32) {
        if self.edges.len() < self.edges.capacity() {
            let _ = self.edges.push(e);
        }
    }

    /// Turns the edges round.
    pub fn reverse(&mut self) {
        self.edges.reverse();
    }

    /// Takes all edges off.
    pub fn clear(&mut self) {
        self.edges.clear();
    }

    /// The edges of a slice in place of its own, as far as there is room.
    pub fn copy_from(&mut self, edges: &[u32]) {
        self.edges.clear();
        for &e in edges {
            self.push(e);
        }
    }
}

/// Whether the run stands in the path, one edge after another. A path has each edge once.
pub fn contains(path: &[u32], run: &[u32]) -> bool {
    let Some(&first) = run.first() else {
        return true;
    };
    for i in 0..path.len() {
        if path[i] == first {
            return path[i..].starts_with(run);
        }
    }
    false
}
