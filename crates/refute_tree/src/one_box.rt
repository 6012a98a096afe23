//! One box and the record of choices that led to it. The box is changed by a choice, and set back when the choice is undone.

ghost use Rattle.std.specs.Prelude.{◌≡◌, ◌≢◌, ◌≤◌, ◌<◌, ◌+◌, ◌^◌, [], ◌∷◌, ◌++◌, replicate, length, false, true, MatchOption, IfOk, IsTrue};
ghost use Rattle.decomposition.specs.Graph.{has_edge};
ghost use Rattle.decomposition.specs.Boxes.{slot_at};
ghost use Rattle.decomposition.specs.Tokens.{next_edges, with_edge, with_hi};
ghost use Rattle.refute_tree.specs.declared.choice.Choice.TheVariants.{Step, Lower, Upper};
ghost use Rattle.refute_tree.specs.Choices.{Place, HasEdge, coming, before, next_of, undone};
ghost use Rattle.refute_tree.specs.OneBox.{place_of, boxes_of, IsLedTo, IsOneBox, Comes, GoesOn, GivesNext};
ghost use Rattle.refute_tree.specs.Ends.{GoWith};

use crate::beside::Beside;
use crate::choice::Choice;
use crate::next::{count_after, next_after};
use dag_net::Net;
use decomposition::Range;
use link_cells::Incidence;
use std::alloc::{AllocError, Global};

/// The range of each slot of the first box, the links that are its walks, and the choices that led to it, the latest last.
#[derive(Debug, Drop)]
pub struct OneBox {
    pub ranges: Vec<Range>,
    pub links: Incidence,
    pub choices: Vec<Choice>,
}

/// How many boxes a choice has still to give.
fn to_come(net: &Net, choice: Choice) -> usize
    requires { HasEdge net.now choice }
    ensures count { result ≡ coming net.now choice }
    ensures few { result ≤ 4096 }
{
    match choice {
        Choice::Step { edge, .. } => count_after(net, edge),
        Choice::Lower { .. } => 1,
        Choice::Upper { .. } => 0,
    }
}

impl OneBox {
    /// The box of so many slots with the range 0 to `cap` and empty walks, to which no choice led, and room for so many choices.
    pub fn of_root(
        alloc: Global,
        net: &Net,
        slots: u32,
        cap: u64,
        room: u32,
    ) -> Result<OneBox, AllocError>
        ensures kept { IfOk result (IsOneBox net.now) }
        ensures place { IfOk result (λ one. place_of one ≡ record { box = replicate slots (record { lo = 0; hi = cap; walk = [] }); choices = [] }) }
        ensures room { IfOk result (λ one. one.links.room ≡ room) }
        ensures slots { IfOk result (λ one. length one.ranges.items ≡ slots) }
    {
        Ok(OneBox {
            ranges: vec![in alloc; Range { lo: 0, hi: cap }; slots as usize]?,
            links: Incidence::with_capacity(alloc, slots, net.edges(), room)?,
            choices: Vec::with_capacity(alloc, room as usize)?,
        })
    }

    /// The number of slots.
    pub fn slots(&self) -> u32
        requires few { length self.now.ranges.items < 2 ^ 32 }
        ensures { result ≡ length self.now.ranges.items }
    {
        self.ranges.len() as u32
    }

    /// The number of boxes: this one, and those that the choices have still to give.
    pub fn count(&self, net: &Net) -> usize
        requires kept { IsOneBox net.now self.now }
        requires few { length self.now.choices.items < 2 ^ 32 }
        ensures { result ≡ length (boxes_of net.now self.now) }
    {
        let mut count = 1;
        for &choice in &self.choices {
            count += to_come(net, choice);
        }
        count
    }

    /// Puts an edge at the end of the walk of a slot, and notes it. The bounds of the slot are taken off the sums.
    pub fn step(&mut self, net: &Net, beside: &mut Beside, slot: u32, edge: u32)
        requires kept { IsOneBox net.now self.old }
        requires beside { GoWith net.now beside.old.known.rules.now self.old.links beside.old }
        requires slot { slot < length self.old.ranges.items }
        requires follows { IsTrue (has_edge (next_edges net.now (slot_at (place_of self.old).box slot).walk) edge) }
        requires room { length self.old.choices.items < self.old.links.room }
        ensures place { Comes net.now self.old self.new (record { box = with_edge (place_of self.old).box slot edge; choices = Step slot edge ∷ (place_of self.old).choices }) }
        ensures beside { GoWith net.now beside.old.known.rules.now self.new.links beside.new }
    {
        beside.sums.clear(net, &self.links, slot);
        let newest = self.links.link(slot, edge).unwrap();
        beside.known.note(&self.links, newest);
        self.choices.push(Choice::Step { slot, edge }).unwrap();
    }

    /// Lowers the greatest weight of a slot to `middle`, and notes it.
    pub fn split(&mut self, net: &Net, slot: u32, middle: u64)
        requires kept { IsOneBox net.now self.old }
        requires slot { slot < length self.old.ranges.items }
        requires middle { middle + 1 < 2 ^ 64 }
        requires room { length self.old.choices.items < self.old.links.room }
        ensures place { Comes net.now self.old self.new (record {
          box = with_hi (place_of self.old).box slot middle;
          choices = Lower slot (middle + 1) (slot_at (place_of self.old).box slot).hi ∷ (place_of self.old).choices;
        }) }
        ensures links { self.new.links ≡ self.old.links }
    {
        let hi = self.ranges[slot as usize].hi;
        self.ranges[slot as usize].hi = middle;
        let lo = middle + 1;
        self.choices.push(Choice::Lower { slot, lo, hi }).unwrap();
    }

    /// Undoes choices until one has a further box to give, which is then the first box; false where none has.
    /// The bounds of each slot whose walk changes are taken off the sums.
    pub fn undo(&mut self, net: &Net, beside: &mut Beside) -> bool
        requires kept { IsOneBox net.now self.old }
        requires beside { GoWith net.now beside.old.known.rules.now self.old.links beside.old }
        requires room { length self.old.choices.items ≤ self.old.links.room }
        ensures place { MatchOption (undone net.now (place_of self.old).box (place_of self.old).choices) (result ≡ false) (λ p. (result ≡ true) × Comes net.now self.old self.new p) }
        ensures beside { GoWith net.now beside.old.known.rules.now self.new.links beside.new }
    {
        while !self.choices.is_empty() {
            if self.go_on(net, beside) {
                return true;
            }
        }
        false
    }

    /// Undoes the latest choice, and takes what is still to come of it, if there is anything.
    fn go_on(&mut self, net: &Net, beside: &mut Beside) -> bool
        requires kept { IsOneBox net.now self.old }
        requires beside { GoWith net.now beside.old.known.rules.now self.old.links beside.old }
        requires some { self.old.choices.items ≢ [] }
        requires room { length self.old.choices.items ≤ self.old.links.room }
        ensures place { GoesOn net.now self.old self.new result }
        ensures beside { GoWith net.now beside.old.known.rules.now self.new.links beside.new }
    {
        let choice = self.choices.pop().unwrap();
        match choice {
            Choice::Step { slot, edge } => self.next_step(net, beside, slot, edge),
            Choice::Lower { slot, lo, hi } => {
                self.raise(net, slot, lo, hi);
                true
            }
            Choice::Upper { slot, lo } => {
                self.lower(net, slot, lo);
                false
            }
        }
    }

    /// Undoes a step, which was the latest choice, and takes the next edge, if there is one.
    fn next_step(&mut self, net: &Net, beside: &mut Beside, slot: u32, edge: u32) -> bool
        requires led { IsLedTo net.now (Step slot edge ∷ (place_of self.old).choices) self.old }
        requires beside { GoWith net.now beside.old.known.rules.now self.old.links beside.old }
        requires room { length self.old.choices.items < self.old.links.room }
        ensures place { GivesNext net.now (Step slot edge) self.old self.new result }
        ensures beside { GoWith net.now beside.old.known.rules.now self.new.links beside.new }
    {
        beside.sums.clear(net, &self.links, slot);
        beside.known.set_back(&self.links);
        self.links.unlink_last();
        match next_after(net, edge) {
            Some(next) => {
                self.step(net, beside, slot, next);
                true
            }
            None => false,
        }
    }

    /// Undoes the lower half of a split, which was the latest choice, and takes the upper half.
    fn raise(&mut self, net: &Net, slot: u32, lo: u64, hi: u64)
        requires led { IsLedTo net.now (Lower slot lo hi ∷ (place_of self.old).choices) self.old }
        requires room { length self.old.choices.items < self.old.links.room }
        ensures place { GivesNext net.now (Lower slot lo hi) self.old self.new true }
        ensures links { self.new.links ≡ self.old.links }
    {
        let was = self.ranges[slot as usize].lo;
        self.ranges[slot as usize] = Range { lo, hi };
        self.choices.push(Choice::Upper { slot, lo: was }).unwrap();
    }

    /// Undoes the upper half of a split, which was the latest choice.
    fn lower(&mut self, net: &Net, slot: u32, lo: u64)
        requires led { IsLedTo net.now (Upper slot lo ∷ (place_of self.old).choices) self.old }
        ensures place { GivesNext net.now (Upper slot lo) self.old self.new false }
        ensures links { self.new.links ≡ self.old.links }
    {
        self.ranges[slot as usize].lo = lo;
    }
}
