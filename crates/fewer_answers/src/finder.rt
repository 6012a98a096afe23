//! Answers of fewer paths in the exact model: the kernel of the flow, sweeps over it, takings where it is dense, then neighbourhoods.

use crate::neighbours::Neighbours;
use crate::starts::Starts;
use crate::tastes::{TASTES, Taste};
use crate::tools::Tools;
use dag_net::{Answer, Net};
use flow_kernels::Kernel;
use flow_sweeps::{How, Means, Rooms};
use search_rooms::{Chance, Paths, Purse};
use std::alloc::{AllocError, Global};

/// The lots of a finder begin here.
const SEED: u64 = 1;

/// So many of the best cuts start long sweeps, of so many cuts at the start.
const BEST_STARTS: u32 = 3;

const LONG: u32 = 300;

/// Sweeps have this part of the work of the first call.
const SWEEPS: u64 = 4;

/// On kernels of at most so many edges neighbourhoods begin from other answers too, each of so many cuts at the start.
const MOST_EDGES: u32 = 600;

const OTHER: u32 = 20;

/// Takings have this part of the work of each call. They are made only where sweeps gave more than so many halves of what is wanted,
/// and more than the first one only where that gave less than so many halves of the paths of the sweeps.
const TAKINGS: u64 = 2;

const HALVES: u32 = 3;

/// Neighbourhoods of light paths and of others take so many turns where takings helped.
const TURNS: u64 = 4;

/// A search for answers of fewer paths that can be gone on with.
#[derive(Drop)]
pub struct Finder {
    kernel: Kernel,
    tools: Tools,
    near: Neighbours,
    starts: Starts,
    /// The best answer, over the kernel.
    best: Paths,
    found: bool,
    is_begun: bool,
    /// How many takings were made, whether more may help, and whether one was better than all before.
    taken: u32,
    may_take: bool,
    is_dense: bool,
    chance: Chance,
}

impl Finder {
    /// A finder for a flow of the net, one amount for each edge, with all its room. Where the flow is not balanced it finds nothing right.
    pub fn prepare(
        alloc: Global,
        net: &Net,
        flow: &[u64],
        purse: &mut Purse,
    ) -> Result<Finder, AllocError> {
        let kernel = Kernel::of(alloc, net, flow, purse)?;
        let longest = kernel.net().longest(alloc)?;
        let rooms = Rooms::of(kernel.net().vertices(), kernel.net().edges(), longest);
        Ok(Finder {
            tools: Tools::with_room(alloc, rooms)?,
            near: Neighbours::with_room(alloc, rooms)?,
            starts: Starts::with_room(alloc)?,
            best: Paths::with_room(alloc, rooms.pieces, rooms.links)?,
            found: kernel.net().edges() == 0,
            kernel,
            is_begun: false,
            taken: 0,
            may_take: true,
            is_dense: false,
            chance: Chance::new(SEED),
        })
    }

    /// How many paths the best answer has, where one was found.
    pub fn paths(&self) -> Option<u32> {
        if self.found {
            Some(self.best.count().saturating_add(self.kernel.direct()))
        } else {
            None
        }
    }

    /// The best answer, in the edges of the net; an empty one where none was found yet.
    pub fn answer(&mut self, alloc: Global) -> Result<Answer, AllocError> {
        if self.found {
            self.kernel.lift(alloc, &self.best)
        } else {
            Ok(Answer::new(alloc))
        }
    }

    /// Goes on to look for fewer paths, until so few are found, or the work is used up.
    pub fn find(&mut self, lower: u32, purse: &mut Purse) {
        let goal = self.kernel.goal(lower);
        let mut means = Means {
            purse: *purse,
            chance: self.chance,
        };
        if self.is_begun {
            self.go_on(goal, &mut means);
        } else {
            self.is_begun = true;
            self.begin(goal, &mut means);
        }
        *purse = means.purse;
        self.chance = means.chance;
    }

    fn is_done(&self, goal: u32) -> bool {
        self.found && self.best.count() <= goal
    }

    /// The first call: sweeps, takings, then neighbourhoods of the best answer.
    fn begin(&mut self, goal: u32, means: &mut Means) {
        let mut part = means.lend(means.purse.left() / SWEEPS);
        self.short_sweeps(goal, &mut part);
        self.long_sweeps(goal, &mut part);
        means.settle(part);
        self.take(goal, means);
        self.search_near(goal, means);
    }

    /// Each further call: takings, and neighbourhoods, on small kernels from other answers first.
    fn go_on(&mut self, goal: u32, means: &mut Means) {
        self.take(goal, means);
        if !self.is_dense && self.kernel.net().edges() <= MOST_EDGES && self.found {
            let mut part = means.lend(means.purse.left() / 3);
            self.search_near_another(true, goal, &mut part);
            means.settle(part);
            let mut part = means.lend(means.purse.left() / 2);
            self.search_near_another(false, goal, &mut part);
            means.settle(part);
        }
        self.search_near(goal, means);
    }

    /// A sweep from the cut of the tools; its answer is kept where it is better. The number of its paths, where it came to an answer.
    fn sweep(&mut self, how: How, means: &mut Means) -> Option<u32> {
        if !self.tools.sweep(self.kernel.net(), how, means) {
            return None;
        }
        let count = self.tools.sweep.best().count();
        if !self.found || count < self.best.count() {
            self.best.copy_from(self.tools.sweep.best());
            self.found = true;
        }
        Some(count)
    }

    /// The cut of the tools is that of a start: the antichain, or one along the order.
    fn cut_at(&mut self, start: u32) {
        if start == 0 {
            self.kernel.write_antichain(&mut self.tools.cut);
        } else {
            let inner = self.kernel.net().vertices().saturating_sub(2);
            let place = inner.saturating_mul(start) / Starts::ALL;
            self.kernel
                .net()
                .cut_before(place.saturating_add(1), &mut self.tools.cut);
        }
    }

    /// A short sweep from each start, the first whatever work is left.
    fn short_sweeps(&mut self, goal: u32, means: &mut Means) {
        self.starts.clear();
        for start in 0..Starts::ALL {
            if self.is_done(goal) || (means.are_spent() && start > 0) {
                return;
            }
            self.cut_at(start);
            if start > 0 {
                means.spend(self.kernel.net().edges());
            }
            let how = How {
                lower: goal,
                rounds: 0,
                noise: false,
            };
            let count = self.sweep(how, means).unwrap_or(u32::MAX);
            self.starts.add(start, count);
        }
    }

    /// A long sweep from the best starts, and from the antichain.
    fn long_sweeps(&mut self, goal: u32, means: &mut Means) {
        self.starts.sort();
        for rank in 0..self.starts.count() {
            if self.is_done(goal) || means.are_spent() {
                return;
            }
            let start = self.starts.at(rank);
            if start > 0 && rank >= BEST_STARTS {
                continue;
            }
            self.cut_at(start);
            let how = How {
                lower: goal,
                rounds: LONG,
                noise: false,
            };
            self.sweep(how, means);
        }
    }

    /// Takings of each taste, and by lot where one of them was better than all before.
    fn take(&mut self, goal: u32, means: &mut Means) {
        if self.taken == 0 && self.best.count().saturating_mul(2) <= goal.saturating_mul(HALVES) {
            return;
        }
        let mut part = means.lend(means.purse.left() / TAKINGS);
        for _ in 0..part.purse.left() {
            if !self.found || self.is_done(goal) || part.are_spent() || !self.wants_takings() {
                break;
            }
            self.take_once(&mut part);
        }
        means.settle(part);
    }

    fn wants_takings(&self) -> bool {
        self.may_take && (self.taken < TASTES || self.is_dense)
    }

    fn take_once(&mut self, means: &mut Means) {
        let taste = if self.taken < TASTES {
            Taste::numbered(self.taken)
        } else {
            Taste::by_lot(means.draw(TASTES))
        };
        let most = self.best.count().saturating_mul(HALVES) / 2;
        let made = self
            .tools
            .takings
            .run(self.kernel.net(), most, taste, means);
        if made && self.tools.takings.best().count() < self.best.count() {
            self.best.copy_from(self.tools.takings.best());
            self.is_dense = true;
        }
        if made || !means.are_spent() {
            self.may_take = made || self.taken > 0;
            self.taken = self.taken.saturating_add(1);
        }
    }

    /// Neighbourhoods of the best answer.
    fn search_near(&mut self, goal: u32, means: &mut Means) {
        if !self.found || self.is_done(goal) || means.are_spent() {
            return;
        }
        if !self.near.begin(self.kernel.net(), &self.best, means) {
            return;
        }
        if self.is_dense {
            self.take_turns(goal, means);
        }
        self.near
            .run(self.kernel.net(), &mut self.tools, goal, means);
        self.near.write(&mut self.best);
    }

    /// Neighbourhoods of light paths, and of others.
    fn take_turns(&mut self, goal: u32, means: &mut Means) {
        for turn in (0..TURNS).rev() {
            let twice = turn.saturating_mul(2);
            let mut part = means.lend(means.purse.left() / twice.saturating_add(2));
            self.near
                .run_light(self.kernel.net(), &mut self.tools, goal, &mut part);
            means.settle(part);
            let mut part = means.lend(means.purse.left() / twice.saturating_add(1));
            self.near
                .run(self.kernel.net(), &mut self.tools, goal, &mut part);
            means.settle(part);
        }
    }

    /// Neighbourhoods of a noisy answer, from the antichain or from a cut by lot.
    fn search_near_another(&mut self, from_antichain: bool, goal: u32, means: &mut Means) {
        if self.is_done(goal) || means.are_spent() {
            return;
        }
        if from_antichain {
            self.cut_at(0);
        } else {
            self.tools.cut_by_lot(self.kernel.net(), means);
        }
        let how = How {
            lower: goal,
            rounds: OTHER,
            noise: true,
        };
        if self.sweep(how, means).is_none() {
            return;
        }
        if self
            .near
            .begin(self.kernel.net(), self.tools.sweep.best(), means)
        {
            self.near
                .run(self.kernel.net(), &mut self.tools, goal, means);
            if self.near.count() > 0 && self.near.count() < self.best.count() {
                self.near.write(&mut self.best);
            }
        }
    }
}
