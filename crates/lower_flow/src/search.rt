//! A breadth first search from the vertices that have too much, over edges with room, to a vertex that takes up some of it.

ghost use Rattle.std.specs.Prelude.{◌≡◌, ◌<◌, ◌⊎◌, ℕ, None, vec_len, slice_index, IsTrue, IfOk, OnOk};
ghost use Rattle.decomposition.specs.Graph.{edge_count, tail, head};
ghost use Rattle.dag_net.specs.Entering.{EnterFrom};
ghost use Rattle.lower_flow.specs.Residual.{near, far, AreSumsAt, IsRanged, residual};
ghost use Rattle.dag_net.specs.Marks.{is_set};
ghost use Rattle.lower_flow.specs.Search.{entry_at, IsSearch, Enters, Grows, IsFollowed, IsVisited, AreStarted, EndsAt};

use crate::ends::step_over;
use crate::sums::{Sums, sum_flow};
use dag_net::{Entering, Net, Range};
use decomposition::Side;
use std::alloc::{AllocError, Global};

/// A vertex that the search has reached, how much can get there, and by which edge from the entry at which earlier place; none where the search begins.
#[derive(Clone, Copy)]
pub struct Reached {
    pub vertex: u32,
    pub room: u64,
    pub way: Option<(u32, usize)>,
}

/// The place of an entry whose vertex takes up as much as the amount.
#[derive(Clone, Copy)]
pub struct Target {
    pub place: usize,
    pub amount: u64,
}

/// The vertices that a search has reached, in turn, a mark on each, and where it has ended.
#[derive(Drop)]
pub struct Search {
    pub entries: Vec<Reached>,
    pub marked: Vec<bool>,
    pub target: Option<Target>,
}

impl Search {
    /// Enters a vertex if it is not marked.
    fn enter(&mut self, reached: Reached) -> Result<(), AllocError>
        requires { reached.vertex < vec_len self.old.marked }
        ensures { OnOk result (Enters self.old.entries.items self.old.marked.items reached self.new.entries.items self.new.marked.items) }
    {
        if self.marked[reached.vertex as usize] {
            return Ok(());
        }
        self.entries.push(reached)?;
        self.marked[reached.vertex as usize] = true;
        Ok(())
    }

    /// Begins at the vertex if it has too much.
    fn enter_surplus(
        &mut self,
        net: &Net,
        ranges: &[Range],
        flow: &[u64],
        side: Side,
        sums: &Sums,
        v: u32,
    ) -> Result<(), AllocError>
        requires vertex { v < net.now.vertices }
        requires far { AreSumsAt net.now (far net.now side) (slice_index flow.now) sums.now.far.items }
        requires near { AreSumsAt net.now (near net.now side) (slice_index flow.now) sums.now.near.items }
        requires search { IsSearch (residual net.now ranges.now side (slice_index flow.now)) self.old.entries.items self.old.marked.items }
        ensures search { OnOk result (IsSearch (residual net.now ranges.now side (slice_index flow.now)) self.new.entries.items self.new.marked.items) }
        ensures grows { OnOk result (Grows self.old.entries.items self.old.marked.items self.new.entries.items self.new.marked.items) }
        ensures started { OnOk result (0 < (residual net.now ranges.now side (slice_index flow.now)).surplus v → IsTrue (is_set self.new.marked.items v)) }
    {
        let room = sums.surplus(net, v);
        if room > 0 {
            return self.enter(Reached {
                vertex: v,
                room,
                way: None,
            });
        }
        Ok(())
    }

    /// Begins at the vertices that have too much.
    fn enter_surpluses(
        &mut self,
        net: &Net,
        ranges: &[Range],
        flow: &[u64],
        side: Side,
        sums: &Sums,
    ) -> Result<(), AllocError>
        requires far { AreSumsAt net.now (far net.now side) (slice_index flow.now) sums.now.far.items }
        requires near { AreSumsAt net.now (near net.now side) (slice_index flow.now) sums.now.near.items }
        requires search { IsSearch (residual net.now ranges.now side (slice_index flow.now)) self.old.entries.items self.old.marked.items }
        ensures search { OnOk result (IsSearch (residual net.now ranges.now side (slice_index flow.now)) self.new.entries.items self.new.marked.items) }
        ensures started { OnOk result (AreStarted (residual net.now ranges.now side (slice_index flow.now)) net.now.vertices self.new.marked.items) }
    {
        for v in 0..net.vertices() {
            self.enter_surplus(net, ranges, flow, side, sums, v)?;
        }
        Ok(())
    }

    /// Enters the vertex to which a step over the edge leads from the entry at place `k`, if the edge has room.
    fn follow(
        &mut self,
        net: &Net,
        ranges: &[Range],
        flow: &[u64],
        side: Side,
        k: usize,
        e: u32,
    ) -> Result<(), AllocError>
        requires edge { e < edge_count net.now }
        requires ranged { IsRanged net.now ranges.now flow.now }
        requires place { k < vec_len self.old.entries }
        requires end { (tail net.now e ≡ (entry_at self.old.entries.items k).vertex) ⊎ (head net.now e ≡ (entry_at self.old.entries.items k).vertex) }
        requires search { IsSearch (residual net.now ranges.now side (slice_index flow.now)) self.old.entries.items self.old.marked.items }
        ensures search { OnOk result (IsSearch (residual net.now ranges.now side (slice_index flow.now)) self.new.entries.items self.new.marked.items) }
        ensures grows { OnOk result (Grows self.old.entries.items self.old.marked.items self.new.entries.items self.new.marked.items) }
        ensures followed { OnOk result (IsFollowed (residual net.now ranges.now side (slice_index flow.now)) self.new.marked.items (entry_at self.old.entries.items k).vertex e) }
    {
        let from = self.entries[k];
        let step = step_over(net, ranges, flow, side, from.vertex, e);
        if step.room > 0 {
            return self.enter(Reached {
                vertex: step.to,
                room: step.room.min(from.room),
                way: Some((e, k)),
            });
        }
        Ok(())
    }

    /// Follows the edges that leave the vertex at place `k`.
    fn follow_leaving(
        &mut self,
        net: &Net,
        ranges: &[Range],
        flow: &[u64],
        side: Side,
        k: usize,
    ) -> Result<(), AllocError>
        requires ranged { IsRanged net.now ranges.now flow.now }
        requires place { k < vec_len self.old.entries }
        requires search { IsSearch (residual net.now ranges.now side (slice_index flow.now)) self.old.entries.items self.old.marked.items }
        ensures search { OnOk result (IsSearch (residual net.now ranges.now side (slice_index flow.now)) self.new.entries.items self.new.marked.items) }
        ensures grows { OnOk result (Grows self.old.entries.items self.old.marked.items self.new.entries.items self.new.marked.items) }
        ensures followed { OnOk result ((e : ℕ) → e < edge_count net.now → tail net.now e ≡ (entry_at self.old.entries.items k).vertex → IsFollowed (residual net.now ranges.now side (slice_index flow.now)) self.new.marked.items (entry_at self.old.entries.items k).vertex e) }
    {
        let mut out = net.first_out(self.entries[k].vertex);
        while let Some(e) = out {
            self.follow(net, ranges, flow, side, k, e)?;
            out = net.next_out(e);
        }
        Ok(())
    }

    /// Follows the edges that enter the vertex at place `k`.
    fn follow_entering(
        &mut self,
        net: &Net,
        entering: &Entering,
        ranges: &[Range],
        flow: &[u64],
        side: Side,
        k: usize,
    ) -> Result<(), AllocError>
        requires entering { EnterFrom net.now 0 entering.now.first.items entering.now.next.items }
        requires ranged { IsRanged net.now ranges.now flow.now }
        requires place { k < vec_len self.old.entries }
        requires search { IsSearch (residual net.now ranges.now side (slice_index flow.now)) self.old.entries.items self.old.marked.items }
        ensures search { OnOk result (IsSearch (residual net.now ranges.now side (slice_index flow.now)) self.new.entries.items self.new.marked.items) }
        ensures grows { OnOk result (Grows self.old.entries.items self.old.marked.items self.new.entries.items self.new.marked.items) }
        ensures followed { OnOk result ((e : ℕ) → e < edge_count net.now → head net.now e ≡ (entry_at self.old.entries.items k).vertex → IsFollowed (residual net.now ranges.now side (slice_index flow.now)) self.new.marked.items (entry_at self.old.entries.items k).vertex e) }
    {
        let mut into = entering.first[self.entries[k].vertex as usize];
        while let Some(e) = into {
            self.follow(net, ranges, flow, side, k, e)?;
            into = entering.next[e as usize];
        }
        Ok(())
    }

    /// Follows the edges at the vertex at place `k`.
    fn visit(
        &mut self,
        net: &Net,
        entering: &Entering,
        ranges: &[Range],
        flow: &[u64],
        side: Side,
        k: usize,
    ) -> Result<(), AllocError>
        requires entering { EnterFrom net.now 0 entering.now.first.items entering.now.next.items }
        requires ranged { IsRanged net.now ranges.now flow.now }
        requires place { k < vec_len self.old.entries }
        requires search { IsSearch (residual net.now ranges.now side (slice_index flow.now)) self.old.entries.items self.old.marked.items }
        ensures search { OnOk result (IsSearch (residual net.now ranges.now side (slice_index flow.now)) self.new.entries.items self.new.marked.items) }
        ensures grows { OnOk result (Grows self.old.entries.items self.old.marked.items self.new.entries.items self.new.marked.items) }
        ensures visited { OnOk result (IsVisited (residual net.now ranges.now side (slice_index flow.now)) self.new.marked.items (entry_at self.old.entries.items k).vertex) }
    {
        self.follow_leaving(net, ranges, flow, side, k)?;
        self.follow_entering(net, entering, ranges, flow, side, k)?;
        Ok(())
    }

    /// Visits the entries in turn until the vertex of one takes up something.
    fn run(
        &mut self,
        net: &Net,
        entering: &Entering,
        ranges: &[Range],
        flow: &[u64],
        side: Side,
        sums: &Sums,
    ) -> Result<Option<Target>, AllocError>
        requires entering { EnterFrom net.now 0 entering.now.first.items entering.now.next.items }
        requires ranged { IsRanged net.now ranges.now flow.now }
        requires far { AreSumsAt net.now (far net.now side) (slice_index flow.now) sums.now.far.items }
        requires near { AreSumsAt net.now (near net.now side) (slice_index flow.now) sums.now.near.items }
        requires started { AreStarted (residual net.now ranges.now side (slice_index flow.now)) net.now.vertices self.old.marked.items }
        requires search { IsSearch (residual net.now ranges.now side (slice_index flow.now)) self.old.entries.items self.old.marked.items }
        ensures search { OnOk result (IsSearch (residual net.now ranges.now side (slice_index flow.now)) self.new.entries.items self.new.marked.items) }
        ensures ends { IfOk result (EndsAt (residual net.now ranges.now side (slice_index flow.now)) self.new.entries.items self.new.marked.items) }
    {
        let mut k = 0;
        while k < self.entries.len() {
            let reached = self.entries[k];
            let lack = sums.lack(net, reached.vertex);
            if lack > 0 {
                let amount = lack.min(reached.room);
                return Ok(Some(Target { place: k, amount }));
            }
            self.visit(net, entering, ranges, flow, side, k)?;
            k += 1;
        }
        Ok(None)
    }

    /// Searches from the vertices that have too much for one that takes up something.
    pub fn from_surpluses(
        alloc: Global,
        net: &Net,
        entering: &Entering,
        ranges: &[Range],
        flow: &[u64],
        side: Side,
    ) -> Result<Self, AllocError>
        requires entering { EnterFrom net.now 0 entering.now.first.items entering.now.next.items }
        requires ranged { IsRanged net.now ranges.now flow.now }
        ensures search { IfOk result (λ search. IsSearch (residual net.now ranges.now side (slice_index flow.now)) search.entries.items search.marked.items) }
        ensures ends { IfOk result (λ search. EndsAt (residual net.now ranges.now side (slice_index flow.now)) search.entries.items search.marked.items search.target) }
    {
        let sums = sum_flow(alloc, net, flow, side)?;
        let mut search = Search {
            entries: Vec::new(alloc),
            marked: vec![in alloc; false; net.vertices() as usize]?,
            target: None,
        };
        search.enter_surpluses(net, ranges, flow, side, &sums)?;
        search.target = search.run(net, entering, ranges, flow, side, &sums)?;
        Ok(search)
    }
}
