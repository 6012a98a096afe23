//! Links of slots and edges: each stands in the list of its slot and in the list of its edge, and the latest can be undone.

ghost use Rattle.std.specs.Prelude.{◌≡◌, ◌≢◌, ◌↔◌, ◌≤◌, ◌<◌, ◌+◌, ◌-◌, ◌++◌, [], ◌∷◌, ℕ, List, length, take, Option, Some, None, IfOk, MatchOption, IsTrue};
ghost use Rattle.link_cells.specs.Cells.{IsLive};
ghost use Rattle.link_cells.specs.Links.{slot_in, edge_in, latest_of, latest_on, walk_of, walk_to};

use std::alloc::{AllocError, Global};
use std::marker::Model;

/// One link of an incidence.
#[derive(Clone, Copy, Debug)]
pub struct Cell {
    place: u32,
}

impl Model for Cell {
    ghost use Rattle.std.specs.Prelude.{ℕ};

    ghost Value = { ℕ };

    ghost view = { λ cell. cell.place };

    ghost inverse = { λ place. record { place = place } };
}

impl Cell {
    /// Whether the two are the same link.
    pub fn is(self, other: Cell) -> bool
        ensures { IsTrue result ↔ (self ≡ other) }
    {
        self.place == other.place
    }
}

/// A slot and an edge, the place of the link of the slot before this one, and of the link of the edge before this one.
#[derive(Clone, Copy, Debug)]
struct Link {
    slot: u32,
    edge: u32,
    before: Option<u32>,
    next: Option<u32>,
}

/// Links of slots and edges, in room for so many.
#[derive(Debug, Drop)]
pub struct Incidence {
    room: u32,
    cells: Vec<Link>,
    last: Vec<Option<u32>>,
    first: Vec<Option<u32>>,
}

impl Model for Incidence {
    ghost use Rattle.link_cells.specs.Links.{LinkList, shown, IsKept};

    ghost Value = { LinkList };

    ghost view = { shown };

    ghost invariant = { IsKept };
}

impl Incidence {
    /// Room for so many links, of which there is none.
    pub fn with_capacity(
        alloc: Global,
        slots: u32,
        edges: u32,
        cells: u32,
    ) -> Result<Incidence, AllocError>
        ensures { IfOk result (λ all. all ≡ record { slots = slots; edges = edges; room = cells; links = [] }) }
    {
        Ok(Incidence {
            room: cells,
            cells: Vec::with_capacity(alloc, cells as usize)?,
            last: vec![in alloc; None; slots as usize]?,
            first: vec![in alloc; None; edges as usize]?,
        })
    }

    /// Links the slot and the edge; none where all links are in use.
    pub fn link(&mut self, slot: u32, edge: u32) -> Option<Cell>
        requires slot { slot < self.old.slots }
        requires edge { edge < self.old.edges }
        ensures { MatchOption result ((self.new ≡ self.old) × (length self.old.links ≡ self.old.room)) (λ cell.
            (cell ≡ length self.old.links) × (length self.old.links < self.old.room)
            × (self.new ≡ record self.old { links = self.old.links ++ (slot, edge) ∷ [] })) }
    {
        let place = self.cells.len() as u32;
        if place == self.room {
            return None;
        }
        let before = self.last[slot as usize];
        let next = self.first[edge as usize];
        self.cells
            .push(Link {
                slot,
                edge,
                before,
                next,
            })
            .unwrap();
        self.last[slot as usize] = Some(place);
        self.first[edge as usize] = Some(place);
        Some(Cell { place })
    }

    /// Undoes the latest link.
    pub fn unlink_last(&mut self)
        requires some { self.old.links ≢ [] }
        ensures { self.new ≡ record self.old { links = take (length self.old.links - 1) self.old.links } }
    {
        let link = self.cells.pop().unwrap();
        self.last[link.slot as usize] = link.before;
        self.first[link.edge as usize] = link.next;
    }

    /// The latest link of the slot.
    pub fn last_cell(&self, slot: u32) -> Option<Cell>
        requires slot { slot < self.now.slots }
        ensures latest { result ≡ latest_of self.now.links slot (length self.now.links) }
        ensures walk { walk_to self.now.links result ≡ walk_of self.now.links slot }
        ensures live { IsLive (length self.now.links) result }
    {
        self.last[slot as usize].map(|place| Cell { place })
    }

    /// The link of the same slot before this one.
    pub fn cell_before(&self, cell: Cell) -> Option<Cell>
        requires cell { cell < length self.now.links }
        ensures latest { result ≡ latest_of self.now.links (slot_in self.now.links cell) cell }
        ensures walk { walk_to self.now.links (Some cell) ≡ walk_to self.now.links result ++ edge_in self.now.links cell ∷ [] }
        ensures before { IsLive cell result }
    {
        self.cells[cell.place as usize]
            .before
            .map(|place| Cell { place })
    }

    /// Whether the link is the latest of all.
    pub fn is_newest(&self, cell: Cell) -> bool
        requires cell { cell < length self.now.links }
        ensures { IsTrue result ↔ (cell + 1 ≡ length self.now.links) }
    {
        cell.place as usize + 1 == self.cells.len()
    }

    /// Whether the link is the latest of its slot.
    pub fn is_last(&self, cell: Cell) -> bool
        requires cell { cell < length self.now.links }
        ensures latest { IsTrue result ↔ (latest_of self.now.links (slot_in self.now.links cell) (length self.now.links) ≡ Some cell) }
        ensures walk { IsTrue result → walk_to self.now.links (Some cell) ≡ walk_of self.now.links (slot_in self.now.links cell) }
    {
        match self.last_cell(self.slot_of(cell)) {
            Some(last) => last.is(cell),
            None => false,
        }
    }

    /// The latest link of the edge.
    pub fn first_on(&self, edge: u32) -> Option<Cell>
        requires edge { edge < self.now.edges }
        ensures { result ≡ latest_on self.now.links edge (length self.now.links) }
    {
        self.first[edge as usize].map(|place| Cell { place })
    }

    /// The link of the same edge before this one.
    pub fn next_on(&self, cell: Cell) -> Option<Cell>
        requires cell { cell < length self.now.links }
        ensures { result ≡ latest_on self.now.links (edge_in self.now.links cell) cell }
    {
        self.cells[cell.place as usize]
            .next
            .map(|place| Cell { place })
    }

    /// The slot of a link.
    pub fn slot_of(&self, cell: Cell) -> u32
        requires cell { cell < length self.now.links }
        ensures slot { result ≡ slot_in self.now.links cell }
        ensures inside { result < self.now.slots }
    {
        self.cells[cell.place as usize].slot
    }

    /// The edge of a link.
    pub fn edge_of(&self, cell: Cell) -> u32
        requires cell { cell < length self.now.links }
        ensures { result ≡ edge_in self.now.links cell }
    {
        self.cells[cell.place as usize].edge
    }

    /// The last edge of the slot's list.
    pub fn last_of(&self, slot: u32) -> Option<u32>
        requires slot { slot < self.now.slots }
        ensures { MatchOption result (walk_of self.now.links slot ≡ []) (λ e. (before : List ℕ) × (walk_of self.now.links slot ≡ before ++ e ∷ [])) }
    {
        match self.last[slot as usize] {
            Some(place) => Some(self.cells[place as usize].edge),
            None => None,
        }
    }
}
