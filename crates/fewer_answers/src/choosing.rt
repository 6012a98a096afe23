//! Which paths of an answer are decomposed anew: some that meet, or some of the lightest.

use crate::through::Through;
use crate::walks::Walks;
use flow_sweeps::Means;
use search_rooms::{FlowNet, Pile};
use std::alloc::{AllocError, Global};

/// A trial has from so many to so many paths.
const FEWEST: u32 = 4;

const MORE: u32 = 27;

/// A trial of light paths has from so many to so many of the lightest, but each is left out with odds of at least 1 in so many.
const LIGHT: u32 = 10;

const MORE_LIGHT: u32 = 100;

const LEFT_OUT: u32 = 3;

const LESS_OFTEN: u32 = 30;

/// So many paths are chosen at most.
pub const MOST_CHOSEN: u32 = 128;

/// A path and its weight.
#[derive(Clone, Copy, Default)]
struct Ranked {
    weight: u64,
    path: u32,
}

/// The paths that are chosen.
#[derive(Drop)]
pub struct Chosen {
    paths: Pile<u32>,
    /// All paths by rising weight.
    ranked: Pile<Ranked>,
}

/// Of two paths the first, or in half of the cases the lighter one.
fn lighter(walks: &Walks, first: u32, second: u32, means: &mut Means) -> u32 {
    let is_lighter = walks.weight(second) < walks.weight(first);
    if means.draw(2) == 0 && is_lighter {
        second
    } else {
        first
    }
}

fn draw_of(list: &[u32], means: &mut Means) -> u32 {
    let count = u32::try_from(list.len()).unwrap_or(0);
    let place = means.draw(count);
    list.get(place as usize).copied().unwrap_or(0)
}

impl Chosen {
    /// Room to choose of so many paths.
    pub fn with_room(alloc: Global, paths: usize) -> Result<Chosen, AllocError> {
        Ok(Chosen {
            paths: Pile::with_room(alloc, MOST_CHOSEN as usize)?,
            ranked: Pile::with_room(alloc, paths)?,
        })
    }

    /// How many paths are chosen.
    pub fn count(&self) -> u32 {
        self.paths.count()
    }

    /// The chosen paths.
    pub fn paths(&self) -> &[u32] {
        self.paths.as_slice()
    }

    /// The chosen path at a place.
    pub fn at(&self, i: u32) -> u32 {
        self.paths.at(i)
    }

    /// The chosen paths from a place on.
    pub fn rest(&self, from: u32) -> &[u32] {
        self.paths.part(from, self.paths.count())
    }

    /// A path by lot, then paths through vertices of chosen ones.
    pub fn meeting(&mut self, net: &FlowNet, walks: &Walks, through: &Through, means: &mut Means) {
        let count = walks.count();
        let most = means.draw(MORE).saturating_add(1);
        let wanted = means.draw(most).saturating_add(FEWEST).min(count);
        let first = means.draw(count);
        let second = means.draw(count);
        let begin = lighter(walks, first, second, means);
        self.paths.clear();
        self.paths.push(begin);
        for _ in 0..wanted.saturating_mul(5) {
            if self.paths.count() >= wanted {
                break;
            }
            self.add_neighbour(net, walks, through, means);
        }
    }

    /// Chooses a path through a vertex of a chosen one.
    fn add_neighbour(
        &mut self,
        net: &FlowNet,
        walks: &Walks,
        through: &Through,
        means: &mut Means,
    ) {
        let known = draw_of(self.paths.as_slice(), means);
        let e = draw_of(walks.path(known), means);
        let paths = through.of(net.head(e));
        if paths.is_empty() {
            return;
        }
        let first = draw_of(paths, means);
        let second = draw_of(paths, means);
        let next = lighter(walks, first, second, means);
        if !self.paths.as_slice().contains(&next) {
            self.paths.push(next);
        }
    }

    fn rank(&mut self, walks: &Walks) {
        self.ranked.clear();
        let mut path = 0u32;
        for &weight in walks.weights() {
            self.ranked.push(Ranked { weight, path });
            path = path.saturating_add(1);
        }
        let ranked = self.ranked.as_mut_slice();
        ranked.sort_unstable_by(|a, b| a.weight.cmp(&b.weight).then(a.path.cmp(&b.path)));
    }

    /// Draws a number and leaves some of the lightest paths out.
    pub fn light(&mut self, walks: &Walks, means: &mut Means) {
        self.rank(walks);
        let most = means.draw(MORE_LIGHT).saturating_add(1);
        let wanted = means.draw(most).saturating_add(LIGHT);
        let odds = means.draw(LESS_OFTEN).saturating_add(LEFT_OUT);
        self.paths.clear();
        for ranked in self.ranked.as_slice() {
            if self.paths.count() < wanted && means.draw(odds) > 0 {
                self.paths.push(ranked.path);
            }
        }
    }
}
