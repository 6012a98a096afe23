//! What may be spent on a graph. Each budget is a multiple of the tokens that are allowed and of the edges, and all of them are paid from
//! one purse; a unit is about one look at each edge for each token.

use search_rooms::Purse;

/// Edges that count at most, and what is added to their number.
const MOST_EDGES: u64 = 512;

const MORE_EDGES: u64 = 64;

/// So many units a round has in all.
const IN_ALL: u64 = 384;

/// So many steps for each token are made to route at the width.
const ROUTING: u64 = 10;

/// The first round has at most so many tokens, and each further one so many times as many.
const FIRST_ROUND: u32 = 20_000;

const MORE: u32 = 8;

/// What may still be spent in a round.
#[derive(Drop)]
pub struct Budget {
    tokens: u32,
    unit: u64,
    purse: Purse,
}

/// The tokens of the first round, of those that are allowed.
pub fn first_round(nodes: u32) -> u32 {
    nodes.min(FIRST_ROUND)
}

/// The tokens of the round after one of so many, of those that are allowed.
pub fn next_round(tokens: u32, nodes: u32) -> u32 {
    tokens.saturating_mul(MORE).min(nodes)
}

impl Budget {
    /// The budget of a round of so many tokens, on so many edges.
    pub fn of(tokens: u32, edges: u32) -> Budget {
        let width = u64::from(edges).saturating_add(MORE_EDGES).min(MOST_EDGES);
        let unit = u64::from(tokens).saturating_mul(width);
        Budget {
            tokens,
            unit,
            purse: Purse::of(unit.saturating_mul(IN_ALL)),
        }
    }

    /// The tokens that a refutation may have.
    pub fn tokens(&self) -> u32 {
        self.tokens
    }

    /// A purse of so many units, or of what is left.
    pub fn lend(&self, units: u64) -> Purse {
        self.purse.lend(self.unit.saturating_mul(units))
    }

    /// A share of so many units, or of what is left, for several purses.
    pub fn part(&self, units: u64) -> Budget {
        Budget {
            tokens: self.tokens,
            unit: self.unit,
            purse: self.lend(units),
        }
    }

    /// A purse for routing at the width.
    pub fn lend_for_routing(&self) -> Purse {
        self.purse
            .lend(u64::from(self.tokens).saturating_mul(ROUTING))
    }

    /// Whether nothing more may be spent.
    pub fn is_spent(&self) -> bool {
        self.purse.is_spent()
    }

    /// Takes off what was spent of a purse that was lent.
    pub fn settle(&mut self, lent: &Purse) {
        self.purse.settle(lent);
    }

    /// Takes off what was spent of a share.
    pub fn settle_part(&mut self, share: &Budget) {
        self.settle(&share.purse);
    }
}
