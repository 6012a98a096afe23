//! Neighbourhoods: some paths of an answer that meet are added up, their sum is decomposed anew by a sweep over its kernel, and the
//! new paths take their places where they are not more. Equal numbers count too: they are what moves the answer on.
//! Or light paths are added up, and their sum is decomposed anew by takings: that helps on dense nets.

use crate::choosing::{Chosen, MOST_CHOSEN};
use crate::sums::Sum;
use crate::tastes::{TASTES, Taste};
use crate::through::Through;
use crate::tools::Tools;
use crate::walks::Walks;
use flow_sweeps::{How, Means, Rooms};
use search_rooms::{FlowNet, Paths, Pile};
use std::alloc::{AllocError, Global};

/// A trial tries so many cuts at the start.
const ROUNDS: u32 = 3;

/// A trial costs so many visits, and one of light paths so many for each path.
const TRIAL: u32 = 200;

const LIGHT: u32 = 4;

/// A path that is replaced costs so many visits for each of its edges.
const REPLACED: u64 = 4;

/// An answer and what a trial needs.
#[derive(Drop)]
pub struct Neighbours {
    walks: Walks,
    through: Through,
    chosen: Chosen,
    sum: Sum,
    lifted: Paths,
    left_over: Pile<u32>,
}

impl Neighbours {
    /// Room for trials over a kernel.
    pub fn with_room(alloc: Global, rooms: Rooms) -> Result<Neighbours, AllocError> {
        let walks = Walks::with_room(alloc, rooms.pieces, rooms.longest)?;
        let chosen = Chosen::with_room(alloc, walks.room_left())?;
        let lifted = MOST_CHOSEN.saturating_mul(rooms.longest.saturating_add(1));
        Ok(Neighbours {
            walks,
            through: Through::with_room(alloc, rooms.vertices)?,
            chosen,
            sum: Sum::with_room(alloc, rooms)?,
            lifted: Paths::with_room(alloc, MOST_CHOSEN.saturating_mul(2), lifted)?,
            left_over: Pile::with_room(alloc, MOST_CHOSEN as usize)?,
        })
    }

    /// Begins with an answer. False where there is no room for it.
    pub fn begin(&mut self, net: &FlowNet, answer: &Paths, means: &mut Means) -> bool {
        self.walks.clear();
        if self.walks.room_left() < answer.count() as usize {
            return false;
        }
        self.through.clear(net.vertices(), answer.count());
        for i in 0..answer.count() {
            self.walks.push(answer.path(i), answer.weight(i));
            self.enter(net, i, means);
        }
        true
    }

    fn is_done(&self, lower: u32, means: &Means) -> bool {
        means.are_spent() || self.walks.count() <= lower.max(1)
    }

    /// Trials until the work is used up, or so few paths are left.
    pub fn run(&mut self, net: &FlowNet, tools: &mut Tools, lower: u32, means: &mut Means) {
        for _ in 0..means.purse.left() {
            if self.is_done(lower, means) {
                break;
            }
            self.chosen.meeting(net, &self.walks, &self.through, means);
            means.spend(TRIAL);
            if self.chosen.count() > 1 {
                self.sum
                    .add_up(net, &self.walks, self.chosen.paths(), means);
                if self.decompose(tools, means) {
                    self.sum.lift(tools.sweep.best(), &mut self.lifted);
                    self.replace(net, means);
                }
            }
        }
    }

    /// The same with light paths and takings.
    pub fn run_light(&mut self, net: &FlowNet, tools: &mut Tools, lower: u32, means: &mut Means) {
        for _ in 0..means.purse.left() {
            if self.is_done(lower, means) {
                break;
            }
            self.chosen.light(&self.walks, means);
            means.spend(self.walks.count().saturating_mul(LIGHT));
            let chosen = self.chosen.count();
            means.spend(chosen.saturating_mul(chosen).saturating_add(TRIAL));
            if chosen > 1 {
                self.sum
                    .add_up(net, &self.walks, self.chosen.paths(), means);
                if self.decompose_light(tools, means) {
                    self.sum.lift(tools.takings.best(), &mut self.lifted);
                    self.replace(net, means);
                }
            }
        }
    }

    /// Writes the answer.
    pub fn write(&self, answer: &mut Paths) {
        self.walks.write(answer);
    }

    /// How many paths the answer has.
    pub fn count(&self) -> u32 {
        self.walks.count()
    }

    fn enter(&mut self, net: &FlowNet, path: u32, means: &mut Means) {
        for &e in self.walks.path(path) {
            if net.head(e) != net.sink() {
                self.through.enter(net.head(e), path, means);
            }
        }
    }

    fn leave(&mut self, net: &FlowNet, path: u32) {
        for &e in self.walks.path(path) {
            if net.head(e) != net.sink() {
                self.through.leave(net.head(e), path);
            }
        }
    }

    /// How few paths of the kernel are wanted; 0: there is nothing to search.
    fn wanted(&self) -> u32 {
        if self.sum.kernel().edges() == 0 {
            return 0;
        }
        self.chosen.count().saturating_sub(self.sum.direct())
    }

    /// Whether a sweep over the kernel gives as few paths.
    fn decompose(&self, tools: &mut Tools, means: &mut Means) -> bool {
        let wanted = self.wanted();
        if wanted == 0 {
            return false;
        }
        let kernel = self.sum.kernel();
        if means.draw(2) == 0 {
            tools.cut_widest(kernel, means);
        } else {
            tools.cut_by_lot(kernel, means);
        }
        means.spend(kernel.edges());
        let noise = means.draw(4) > 0;
        let how = How {
            lower: 1,
            rounds: ROUNDS,
            noise,
        };
        tools.sweep(kernel, how, means) && tools.sweep.best().count() <= wanted
    }

    /// Whether takings over the kernel, of a taste by lot, give as few paths.
    fn decompose_light(&self, tools: &mut Tools, means: &mut Means) -> bool {
        let wanted = self.wanted();
        if wanted == 0 {
            return false;
        }
        let taste = Taste::by_lot(means.draw(TASTES));
        tools.takings.run(self.sum.kernel(), wanted, taste, means)
    }

    /// The new paths take the places of the old ones, and the last paths those that are left over.
    fn replace(&mut self, net: &FlowNet, means: &mut Means) {
        self.lifted.merge_equal();
        for i in 0..self.chosen.count() {
            let path = self.chosen.at(i);
            means.purse.spend((self.walks.path(path).len() as u64).saturating_mul(REPLACED));
            self.leave(net, path);
        }
        let mut new = 0u32;
        for i in 0..self.lifted.count() {
            if self.lifted.weight(i) > 0 {
                let path = self.chosen.at(new);
                self.write_path(path, i);
                self.enter(net, path, means);
                new = new.saturating_add(1);
            }
        }
        self.close_up(net, new, means);
    }

    /// Path i of the new ones takes the place of an old one, in the edges of the net.
    fn write_path(&mut self, path: u32, i: u32) {
        self.walks.begin_anew(path, self.lifted.weight(i));
        for &e in self.lifted.path(i) {
            self.walks.lengthen(path, self.sum.edge(e));
        }
    }

    /// The last paths take the places of the chosen ones from a number on.
    fn close_up(&mut self, net: &FlowNet, from: u32, means: &mut Means) {
        self.left_over.clear();
        for &path in self.chosen.rest(from) {
            self.left_over.push(path);
        }
        self.left_over.as_mut_slice().sort_unstable();
        for _ in 0..self.left_over.len() {
            if let Some(path) = self.left_over.pop() {
                self.take_out(net, path, means);
            }
        }
    }

    fn take_out(&mut self, net: &FlowNet, path: u32, means: &mut Means) {
        let last = self.walks.count().saturating_sub(1);
        if path != last {
            self.leave(net, last);
        }
        self.walks.take_out(path);
        if path != last {
            self.enter(net, path, means);
        }
    }
}
