//! Lists of levels.

ghost use Rattle.std.specs.Prelude.{◌≡◌, ◌<◌, List, [], ◌∷◌, ◌++◌, length, slice_index_or, OnOk, OnErr, ℤ, pos};
ghost use Rattle.error_flow.specs.Certificate.{level_at};

use std::alloc::{AllocError, Global};
use std::marker::Model;

/// A list of levels.
#[derive(Debug, Drop)]
pub struct Levels {
    items: Vec<i64>,
}

impl Model for Levels {
    ghost use Rattle.std.specs.Prelude.{List, ℤ};

    ghost Value = { List ℤ };

    ghost view = { λ levels. levels.items.items };
}

impl Levels {
    /// An empty list.
    pub fn new(alloc: Global) -> Self
        ensures { result ≡ [] }
    {
        Levels {
            items: Vec::new(alloc),
        }
    }

    /// The list of these entries.
    pub(crate) fn of(items: Vec<i64>) -> Self
        ensures { result ≡ items.items }
    {
        Levels { items }
    }

    /// How many entries there are.
    pub fn len(&self) -> usize
        ensures { result ≡ length self.now }
    {
        self.items.len()
    }

    /// The entry at a place.
    pub fn get(&self, i: usize) -> i64
        requires { i < length self.now }
        ensures { result ≡ level_at self.now i }
    {
        self.items[i]
    }

    /// The entries as a slice.
    pub fn as_slice(&self) -> &[i64]
        ensures { result.now ≡ self.now }
    {
        self.items.as_slice()
    }

    /// Adds an entry at the end.
    pub fn push(&mut self, item: i64) -> Result<(), AllocError>
        ensures ok { OnOk result (self.new ≡ self.old ++ item ∷ []) }
        ensures err { OnErr result (self.new ≡ self.old) }
    {
        self.items.push(item)?;
        Ok(())
    }
}
