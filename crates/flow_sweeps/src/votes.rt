//! How surprising it is that a number is the flow of an edge: the more edges have it, and the fewer numbers are as frequent, the more.

use search_rooms::{Amounts, Pile};
use std::alloc::{AllocError, Global};

/// Edges of one flow are counted up to this number.
const MOST: u32 = 64;

/// The numbers that are flows of edges, rising, and the bits of surprise of each.
#[derive(Drop)]
pub struct Votes {
    sorted: Pile<u64>,
    values: Pile<u64>,
    bits: Pile<u32>,
    /// How many numbers are the flow of so many edges, or of more.
    as_frequent: Amounts,
}

impl Votes {
    /// Room for so many flows.
    pub fn with_room(alloc: Global, flows: u32) -> Result<Votes, AllocError> {
        Ok(Votes {
            sorted: Pile::with_room(alloc, flows as usize)?,
            values: Pile::with_room(alloc, flows as usize)?,
            bits: Pile::with_room(alloc, flows as usize)?,
            as_frequent: Amounts::zeros(alloc, MOST.saturating_add(2))?,
        })
    }

    /// Counts flows.
    pub fn count(&mut self, flows: &[u64]) {
        self.sorted.clear();
        for &flow in flows {
            self.sorted.push(flow);
        }
        self.sorted.as_mut_slice().sort_unstable();
        self.count_values();
        self.count_frequencies();
        self.weigh();
    }

    /// How many edges have each number; the counts stand where the bits are to stand.
    fn count_values(&mut self) {
        self.values.clear();
        self.bits.clear();
        let mut before = 0u64;
        for &value in self.sorted.as_slice() {
            if value != before || self.values.is_empty() {
                self.values.push(value);
                self.bits.push(0);
            }
            before = value;
            let last = self.bits.count().saturating_sub(1);
            let count = self.bits.at(last).saturating_add(1).min(MOST);
            self.bits.put(last, count);
        }
    }

    fn count_frequencies(&mut self) {
        self.as_frequent.fill_first(MOST.saturating_add(2), 0);
        for &count in self.bits.as_slice() {
            let numbers = self.as_frequent.at(count).saturating_add(1);
            self.as_frequent.put(count, numbers);
        }
        for count in (1..MOST).rev() {
            let more = self.as_frequent.at(count.saturating_add(1));
            let sum = self.as_frequent.at(count).saturating_add(more);
            self.as_frequent.put(count, sum);
        }
    }

    /// From counts to bits of surprise.
    fn weigh(&mut self) {
        let tenth = self.values.count() / 10;
        let last = self.values.count().saturating_sub(1);
        let range = self.values.at(last.saturating_sub(tenth));
        for place in 0..self.bits.count() {
            let numbers = self.as_frequent.at(self.bits.at(place)).max(1);
            let rarity = range / numbers;
            self.bits.put(place, rarity.max(1).ilog2());
        }
    }

    /// The numbers that are flows of edges, rising, each once.
    pub fn values(&self) -> &[u64] {
        self.values.as_slice()
    }

    /// The bits of a number, 0 where no edge has that flow.
    pub fn bits(&self, value: u64) -> u32 {
        let mut low = 0u32;
        let mut high = self.values.count();
        for _ in 0..32 {
            if low >= high {
                break;
            }
            let middle = low.midpoint(high);
            if self.values.at(middle) < value {
                low = middle.saturating_add(1);
            } else {
                high = middle;
            }
        }
        if self.values.get(low as usize) == Some(value) {
            self.bits.at(low)
        } else {
            0
        }
    }
}
