//! What a search may use up.

use search_rooms::{Chance, Purse};

/// Work that may still be done, in visits of edges, and lots.
#[derive(Clone, Copy)]
pub struct Means {
    pub purse: Purse,
    pub chance: Chance,
}

impl Means {
    /// Means of their own, with at most so much of the work.
    pub fn lend(&self, most: u64) -> Means {
        Means {
            purse: self.purse.lend(most),
            chance: self.chance,
        }
    }

    /// Takes off what was used of means that these lent.
    pub fn settle(&mut self, lent: Means) {
        self.purse.settle(&lent.purse);
        self.chance = lent.chance;
    }

    /// The next lot, a number below n.
    pub fn draw(&mut self, n: u32) -> u32 {
        self.chance.below(n)
    }

    /// Takes so many visits off.
    pub fn spend(&mut self, visits: u32) {
        self.purse.spend(u64::from(visits));
    }

    /// Whether no work is left.
    pub fn are_spent(&self) -> bool {
        self.purse.is_spent()
    }
}
