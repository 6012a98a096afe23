//! Cells, each with an edge and the tail below it: many lists that share their beginnings, one cell for each edge.

ghost use Rattle.std.specs.Prelude.{◌≡◌, ◌≤◌, ◌<◌, ◌++◌, [], ◌∷◌, ℕ, List, length, take, Option, Some, None, IsSome, is_none, IfOk, MatchOption};
ghost use Rattle.link_cells.specs.Cells.{list_at, IsLive};

use std::alloc::{AllocError, Global};
use std::marker::Model;

/// The end of a list of edges: the empty list, or the cell of its last edge.
#[derive(Clone, Copy, Debug)]
pub struct Tail {
    cell: Option<u32>,
}

impl Model for Tail {
    ghost use Rattle.std.specs.Prelude.{ℕ, Option};

    ghost Value = { Option ℕ };

    ghost view = { λ tail. tail.cell };

    ghost inverse = { λ cell. record { cell = cell } };
}

impl Tail {
    /// The end of the empty list.
    pub const EMPTY: Tail = Tail { cell: None };

    /// Whether this is the end of the empty list.
    pub fn is_empty(self) -> bool
        ensures { result ≡ is_none self }
    {
        self.cell.is_none()
    }
}

/// An edge, and the list that stands before it.
#[derive(Clone, Copy, Debug)]
struct Cell {
    edge: u32,
    below: Tail,
}

/// Lists of edges by their tails, in room for so many cells. A list takes one cell more than the list that it goes on from.
#[derive(Debug, Drop)]
pub struct Cells {
    room: u32,
    cells: Vec<Cell>,
}

impl Model for Cells {
    ghost use Rattle.link_cells.specs.Cells.{CellLists, shown, IsKept};

    ghost Value = { CellLists };

    ghost view = { shown };

    ghost invariant = { IsKept };
}

impl Cells {
    /// Room for `n` cells, none in use.
    pub fn with_capacity(alloc: Global, n: u32) -> Result<Cells, AllocError>
        ensures { IfOk result (λ cells. cells ≡ record { room = n; lists = [] }) }
    {
        Ok(Cells {
            room: n,
            cells: Vec::with_capacity(alloc, n as usize)?,
        })
    }

    /// How many cells are in use. No list has more edges.
    pub fn len(&self) -> u32
        ensures len { result ≡ length self.now.lists }
        ensures fits { result ≤ self.now.room }
        ensures no_longer { (tail : Option ℕ) → length (list_at self.now.lists tail) ≤ result }
    {
        self.cells.len() as u32
    }

    /// The tail of the list below, and then the edge; none where all cells are in use.
    pub fn push(&mut self, edge: u32, below: Tail) -> Option<Tail>
        requires live { IsLive (length self.old.lists) below }
        ensures pushed { MatchOption result ((self.new ≡ self.old) × (length self.old.lists ≡ self.old.room)) (λ tail.
            (tail ≡ Some (length self.old.lists)) × (length self.old.lists < self.old.room)
            × (self.new ≡ record self.old { lists = self.old.lists ++ (list_at self.old.lists below ++ edge ∷ []) ∷ [] })) }
    {
        let place = self.len();
        if place == self.room {
            return None;
        }
        self.cells.push(Cell { edge, below }).unwrap();
        Some(Tail { cell: Some(place) })
    }

    /// The last edge of a list.
    pub fn edge(&self, tail: Tail) -> u32
        requires live { IsLive (length self.now.lists) tail }
        requires some { IsSome tail }
        ensures { (before : List ℕ) × (list_at self.now.lists tail ≡ before ++ result ∷ []) }
    {
        match tail.cell {
            Some(k) => self.cells[k as usize].edge,
            None => unreachable!(),
        }
    }

    /// The list without its last edge.
    pub fn below(&self, tail: Tail) -> Tail
        requires live { IsLive (length self.now.lists) tail }
        requires some { IsSome tail }
        ensures list { (edge : ℕ) × (list_at self.now.lists tail ≡ list_at self.now.lists result ++ edge ∷ []) }
        ensures live { IsLive (length self.now.lists) result }
        ensures before { (place : ℕ) → tail ≡ Some place → IsLive place result }
    {
        match tail.cell {
            Some(k) => self.cells[k as usize].below,
            None => unreachable!(),
        }
    }

    /// Drops the cells from number `mark` on.
    pub fn cut(&mut self, mark: u32)
        requires { mark ≤ length self.old.lists }
        ensures { self.new ≡ record self.old { lists = take mark self.old.lists } }
    {
        self.cells.truncate(mark as usize);
    }
}
