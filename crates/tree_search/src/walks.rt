//! The walks of the slots. Their edges stand in one pile, each with the place of the one before it, so the latest edge is the last of the pile.

use search_rooms::{NONE, Names, Pile, View};
use std::alloc::{AllocError, Global};

/// An edge of a walk, and the place of the one before it.
#[derive(Clone, Copy)]
pub struct Cell {
    pub edge: u32,
    pub before: u32,
}

/// The walks of all slots.
#[derive(Drop)]
pub struct Walks {
    cells: Pile<Cell>,
    /// For each slot the place of the last edge, the vertex at which the walk ends, and how many edges it has.
    tips: Names,
    ends: Names,
    lengths: Names,
}

impl Walks {
    /// Empty walks of so many slots, and room for so many edges in all.
    pub fn of(alloc: Global, slots: u32, room: usize) -> Result<Walks, AllocError> {
        Ok(Walks {
            cells: Pile::with_room(alloc, room)?,
            tips: Names::nones(alloc, slots)?,
            ends: Names::nones(alloc, slots)?,
            lengths: Names::nones(alloc, slots)?,
        })
    }

    /// The vertex at which a walk ends, or none where it is empty.
    #[inline(always)]
    pub fn end(&self, slot: u32) -> u32 {
        self.ends.at(slot)
    }

    /// How many edges a walk has.
    #[inline(always)]
    pub fn len(&self, slot: u32) -> u32 {
        let length = self.lengths.at(slot);
        if length == NONE { 0 } else { length }
    }

    /// The place of the last edge of a walk, or none.
    #[inline(always)]
    pub fn tip(&self, slot: u32) -> u32 {
        self.tips.at(slot)
    }

    /// What stands at a place.
    #[inline(always)]
    pub fn cell(&self, place: u32) -> Cell {
        self.cells.get(place as usize).unwrap_or(Cell {
            edge: NONE,
            before: NONE,
        })
    }

    /// Adds an edge at the end of a walk.
    pub fn grow(&mut self, slot: u32, edge: u32, head: u32) {
        let place = u32::try_from(self.cells.len()).unwrap_or(NONE);
        let before = self.tips.at(slot);
        self.cells.push(Cell { edge, before });
        self.tips.put(slot, place);
        self.ends.put(slot, head);
        let length = self.len(slot).saturating_add(1);
        self.lengths.put(slot, length);
    }

    /// Takes off the edge that was added last, which is the end of this walk.
    pub fn shrink(&mut self, view: &View, slot: u32) -> u32 {
        let Some(cell) = self.cells.pop() else {
            return NONE;
        };
        self.tips.put(slot, cell.before);
        let end = view.head(self.cell(cell.before).edge);
        self.ends.put(slot, end);
        let length = self.len(slot).saturating_sub(1);
        self.lengths.put(slot, length);
        cell.edge
    }

    /// Whether some path begins with the walk and contains the run.
    pub fn may_contain(&self, view: &View, slot: u32, run: &[u32]) -> bool {
        let Some(&first) = run.first() else {
            return true;
        };
        if self.tip(slot) == NONE || view.reaches(self.end(slot), view.tail(first)) {
            return true;
        }
        match self.length_from(slot, first) {
            Some(count) => self.ends_like(slot, count, run),
            None => false,
        }
    }

    /// How many edges a walk has from an edge on, where that is in it.
    fn length_from(&self, slot: u32, first: u32) -> Option<u32> {
        let mut place = self.tip(slot);
        for before in 0..self.len(slot) {
            let cell = self.cell(place);
            if cell.edge == first {
                return Some(before.saturating_add(1));
            }
            place = cell.before;
        }
        None
    }

    /// Whether the last so many edges of a walk and the run are equal as far as both go.
    fn ends_like(&self, slot: u32, count: u32, run: &[u32]) -> bool {
        let mut place = self.tip(slot);
        for k in (0..count).rev() {
            let cell = self.cell(place);
            let wanted = run.get(k as usize).copied().unwrap_or(cell.edge);
            if cell.edge != wanted {
                return false;
            }
            place = cell.before;
        }
        true
    }
}
