//! Pieces of the flow: each has a weight, an initial part that it comes of, and a walk, which pieces of one part may share.

use search_rooms::{NONE, Paths, Pile};
use std::alloc::{AllocError, Global};

/// An edge of a walk, and the link before it.
#[derive(Clone, Copy)]
struct Link {
    edge: u32,
    before: u32,
}

/// Pieces in a room that is asked for once.
#[derive(Drop)]
pub struct Pieces {
    weights: Pile<u64>,
    roots: Pile<u32>,
    /// The last link of each walk.
    lasts: Pile<u32>,
    links: Pile<Link>,
}

impl Pieces {
    /// Room for so many pieces, and for walks of so many edges in all.
    pub fn with_room(alloc: Global, pieces: u32, links: u32) -> Result<Pieces, AllocError> {
        Ok(Pieces {
            weights: Pile::with_room(alloc, pieces as usize)?,
            roots: Pile::with_room(alloc, pieces as usize)?,
            lasts: Pile::with_room(alloc, pieces as usize)?,
            links: Pile::with_room(alloc, links as usize)?,
        })
    }

    /// No pieces.
    pub fn clear(&mut self) {
        self.weights.clear();
        self.roots.clear();
        self.lasts.clear();
        self.links.clear();
    }

    /// How many pieces there are.
    pub fn count(&self) -> u32 {
        self.weights.count()
    }

    /// Whether there is room for so many links, and for a piece more.
    pub fn has_room(&self, links: usize) -> bool {
        self.links.room_left() >= links && !self.weights.is_full()
    }

    /// The weight of a piece.
    pub fn weight(&self, piece: u32) -> u64 {
        self.weights.at(piece)
    }

    /// The initial part that a piece comes of.
    pub fn root(&self, piece: u32) -> u32 {
        self.roots.at(piece)
    }

    /// Adds a piece without a walk.
    pub fn add(&mut self, weight: u64, root: u32) {
        self.weights.push(weight);
        self.roots.push(root);
        self.lasts.push(NONE);
    }

    /// The walk of a piece goes on.
    pub fn step(&mut self, piece: u32, edge: u32) {
        let name = self.links.count();
        let before = self.lasts.at(piece);
        self.links.push(Link { edge, before });
        self.lasts.put(piece, name);
    }

    /// Writes the walk of a piece behind a path, its last edge first.
    pub fn spell(&self, piece: u32, path: &mut Paths) {
        let mut at = self.lasts.at(piece);
        for _ in 0..self.links.count() {
            let Some(link) = self.links.get(at as usize) else {
                break;
            };
            path.push(link.edge);
            at = link.before;
        }
    }

    /// Takes a part off a piece. The new piece, with the same walk.
    pub fn cut(&mut self, piece: u32, off: u64) -> u32 {
        let name = self.count();
        let left = self.weights.at(piece).saturating_sub(off);
        let root = self.roots.at(piece);
        let last = self.lasts.at(piece);
        self.weights.put(piece, left);
        self.weights.push(off);
        self.roots.push(root);
        self.lasts.push(last);
        name
    }
}
