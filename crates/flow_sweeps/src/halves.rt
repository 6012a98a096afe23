//! One half of a sweep: pieces of the flow that start at a cut are shared out vertex by vertex, on to the sink or back to the source.

use crate::loads::Load;
use crate::means::Means;
use crate::pieces::Pieces;
use crate::rooms::Rooms;
use crate::shares::Shares;
use search_rooms::{FlowNet, NONE, Names, Paths, Pile};
use std::alloc::{AllocError, Global};

/// The pieces of one half, the first of them at each vertex or of each initial part, and the next one there.
#[derive(Drop)]
pub struct Half {
    forward: bool,
    pieces: Pieces,
    firsts: Names,
    next: Names,
}

impl Half {
    /// Room for the pieces of a half.
    pub fn with_room(alloc: Global, rooms: Rooms, forward: bool) -> Result<Half, AllocError> {
        Ok(Half {
            forward,
            pieces: Pieces::with_room(alloc, rooms.pieces, rooms.links)?,
            firsts: Names::nones(alloc, rooms.vertices.max(rooms.parts))?,
            next: Names::nones(alloc, rooms.pieces)?,
        })
    }

    /// The vertex to which an edge leads in this half.
    fn end(&self, net: &FlowNet, e: u32) -> u32 {
        if self.forward {
            net.head(e)
        } else {
            net.tail(e)
        }
    }

    /// All pieces go from their parts, each an edge and a weight, to the end of the net. False where there are more than so many
    /// pieces, or the room is used up.
    pub fn run(
        &mut self,
        net: &FlowNet,
        parts: &[Load],
        most: u32,
        shares: &mut Shares,
        means: &mut Means,
    ) -> bool {
        self.begin(net, parts);
        for place in 0..net.vertices() {
            let v = if self.forward {
                place
            } else {
                net.sink().saturating_sub(place)
            };
            if self.firsts.at(v) != NONE && !self.pass(net, v, most, shares, means) {
                return false;
            }
        }
        true
    }

    /// Each initial part is a piece behind its edge, or before it.
    fn begin(&mut self, net: &FlowNet, parts: &[Load]) {
        self.pieces.clear();
        self.firsts.fill_first(net.vertices(), NONE);
        let mut root = 0u32;
        for part in parts {
            self.pieces.add(part.weight, root);
            let end = self.end(net, part.name);
            self.put_at(end, root);
            root = root.saturating_add(1);
        }
    }

    /// The pieces at a vertex are shared out to its edges, if it has any, and go on.
    fn pass(
        &mut self,
        net: &FlowNet,
        v: u32,
        most: u32,
        shares: &mut Shares,
        means: &mut Means,
    ) -> bool {
        let edges = if self.forward {
            net.out(v)
        } else {
            net.into(v)
        };
        if edges.is_empty() {
            return true;
        }
        shares.clear();
        self.give_parts(v, shares);
        for &e in edges {
            shares.add_bin(net.flow(e), e);
        }
        means.spend(shares.parts());
        shares.share(&mut self.pieces, means);
        if self.pieces.count() > most || !self.pieces.has_room(shares.given().len()) {
            return false;
        }
        for given in shares.given() {
            self.pieces.step(given.piece, given.bin);
            let end = self.end(net, given.bin);
            self.put_at(end, given.piece);
        }
        true
    }

    fn put_at(&mut self, place: u32, piece: u32) {
        let old = self.firsts.at(place);
        self.next.put(piece, old);
        self.firsts.put(place, piece);
    }

    /// Lists the pieces of each initial part.
    pub fn list_by_part(&mut self, parts: u32) {
        self.firsts.fill_first(parts, NONE);
        for piece in 0..self.pieces.count() {
            let root = self.pieces.root(piece);
            self.put_at(root, piece);
        }
    }

    /// The pieces of a list are the parts to be shared out.
    fn give_parts(&self, place: u32, shares: &mut Shares) {
        let mut piece = self.firsts.at(place);
        for _ in 0..self.pieces.count() {
            if piece == NONE {
                break;
            }
            shares.add_part(self.pieces.weight(piece), piece);
            piece = self.next.at(piece);
        }
    }

    /// The pieces of a list are the bins.
    fn give_bins(&self, place: u32, shares: &mut Shares) {
        let mut piece = self.firsts.at(place);
        for _ in 0..self.pieces.count() {
            if piece == NONE {
                break;
            }
            shares.add_bin(self.pieces.weight(piece), piece);
            piece = self.next.at(piece);
        }
    }

    /// The pieces of an initial part are shared out to those that the other half has of it, and joined to paths through its edge.
    pub fn join(
        &mut self,
        on: &Half,
        root: u32,
        edge: u32,
        shares: &mut Shares,
        paths: &mut Paths,
        means: &mut Means,
    ) {
        shares.clear();
        self.give_parts(root, shares);
        on.give_bins(root, shares);
        shares.share(&mut self.pieces, means);
        for given in shares.given() {
            self.pieces.spell(given.piece, paths);
            paths.push(edge);
            let from = paths.begun();
            on.pieces.spell(given.bin, paths);
            paths.turn(from);
            paths.end(self.pieces.weight(given.piece));
        }
    }
}
