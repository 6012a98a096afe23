//! The cuts that start sweeps, and how few paths each gave.

use search_rooms::Pile;
use std::alloc::{AllocError, Global};

/// A start, and how many paths came of it.
#[derive(Clone, Copy, Default)]
struct Start {
    number: u32,
    paths: u32,
}

/// Starts by the paths that came of them.
#[derive(Drop)]
pub struct Starts {
    all: Pile<Start>,
}

impl Starts {
    /// The antichain, and so many cuts less one spread along the order.
    pub const ALL: u32 = 21;

    /// Room for all starts.
    pub fn with_room(alloc: Global) -> Result<Starts, AllocError> {
        let all = Pile::with_room(alloc, Starts::ALL as usize)?;
        Ok(Starts { all })
    }

    /// No start was tried.
    pub fn clear(&mut self) {
        self.all.clear();
    }

    /// Notes how many paths came of a start.
    pub fn add(&mut self, number: u32, paths: u32) {
        self.all.push(Start { number, paths });
    }

    /// How many starts were tried.
    pub fn count(&self) -> u32 {
        self.all.count()
    }

    /// The number of the start of a rank.
    pub fn at(&self, rank: u32) -> u32 {
        self.all.at(rank).number
    }

    /// The best come first.
    pub fn sort(&mut self) {
        let all = self.all.as_mut_slice();
        all.sort_unstable_by(|a, b| a.paths.cmp(&b.paths).then(a.number.cmp(&b.number)));
    }
}
