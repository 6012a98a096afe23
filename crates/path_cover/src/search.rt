//! A search from the sources for a way along which one unit less may flow.

ghost use Rattle.std.specs.Prelude.{◌≡◌, ◌⊎◌, ℕ, ◌<◌, ◌↔◌, None, Some, true, false, length, vec_len, slice_index, IsTrue, IfOk, OnOk};
ghost use Rattle.decomposition.specs.Graph.{edge_count, tail, head, is_source};
ghost use Rattle.path_cover.specs.Carrying.{least_flow};
ghost use Rattle.dag_net.specs.Entering.{EnterFrom};
ghost use Rattle.dag_net.specs.Marks.{is_set};
ghost use Rattle.path_cover.specs.Search.{entry_at, IsSearch, IsBegun, Enters, Grows, IsFollowed, IsVisited, AreSourcesMarked, EndsAt, MayVisit, KeepsSearch};

use dag_net::{Entering, Net};
use std::alloc::{AllocError, Global};

/// A vertex that the search has reached: a source, or by an edge from the entry at an earlier place.
#[derive(Clone, Copy)]
pub struct Reached {
    pub vertex: u32,
    pub way: Option<(u32, usize)>,
}

/// The vertices that a search has reached, in turn, a mark on each, and the place of a sink where one is among them.
#[derive(Drop)]
pub struct Search {
    pub entries: Vec<Reached>,
    pub marked: Vec<bool>,
    pub sink: Option<usize>,
}

/// Whether an edge has a unit of flow to spare.
pub fn can_spare(flow: &[u64], needed: &[bool], e: u32) -> bool
    requires flow { e < length flow.now }
    requires needed { e < length needed.now }
    ensures { IsTrue result ↔ (least_flow (is_set needed.now) e < slice_index flow.now e) }
{
    if needed[e as usize] {
        flow[e as usize] > 1
    } else {
        flow[e as usize] > 0
    }
}

impl Search {
    /// Enters a vertex if it is not marked.
    fn enter(&mut self, vertex: u32, way: Option<(u32, usize)>) -> Result<(), AllocError>
        requires { vertex < vec_len self.old.marked }
        ensures { OnOk result (Enters self.old.entries.items self.old.marked.items (record { vertex = vertex; way = way }) self.new.entries.items self.new.marked.items) }
    {
        if self.marked[vertex as usize] {
            return Ok(());
        }
        self.entries.push(Reached { vertex, way })?;
        self.marked[vertex as usize] = true;
        Ok(())
    }

    /// Enters the tail of an edge if it is a source.
    fn enter_source(&mut self, net: &Net, e: u32) -> Result<(), AllocError>
        requires edge { e < edge_count net.now }
        requires begun { IsBegun net.now self.old.entries.items self.old.marked.items }
        ensures begun { OnOk result (IsBegun net.now self.new.entries.items self.new.marked.items) }
        ensures grows { OnOk result (Grows self.old.entries.items self.old.marked.items self.new.entries.items self.new.marked.items) }
        ensures source { OnOk result (IsTrue (is_source net.now (tail net.now e)) → IsTrue (is_set self.new.marked.items (tail net.now e))) }
    {
        let v = net.tail(e);
        if net.is_source(v) {
            return self.enter(v, None);
        }
        Ok(())
    }

    /// Enters the sources that edges leave.
    fn enter_sources(&mut self, net: &Net) -> Result<(), AllocError>
        requires { IsBegun net.now self.old.entries.items self.old.marked.items }
        ensures begun { OnOk result (IsBegun net.now self.new.entries.items self.new.marked.items) }
        ensures sources { OnOk result (AreSourcesMarked net.now (edge_count net.now) self.new.marked.items) }
    {
        for e in 0..net.edges() {
            self.enter_source(net, e)?;
        }
        Ok(())
    }

    /// Enters the vertex to which a step over the edge leads from the entry at place `k`, if one does.
    fn follow(
        &mut self,
        net: &Net,
        flow: &[u64],
        needed: &[bool],
        k: usize,
        e: u32,
    ) -> Result<(), AllocError>
        requires edge { e < edge_count net.now }
        requires end { (tail net.now e ≡ (entry_at self.old.entries.items k).vertex) ⊎ (head net.now e ≡ (entry_at self.old.entries.items k).vertex) }
        requires at { MayVisit net.now flow.now needed.now self.old k }
        ensures kept { OnOk result (KeepsSearch net.now flow.now needed.now self.old self.new) }
        ensures followed { OnOk result (IsFollowed net.now (is_set needed.now) (slice_index flow.now) self.new.marked.items (entry_at self.old.entries.items k).vertex e) }
    {
        if net.head(e) == self.entries[k].vertex {
            return self.enter(net.tail(e), Some((e, k)));
        }
        if can_spare(flow, needed, e) {
            return self.enter(net.head(e), Some((e, k)));
        }
        Ok(())
    }

    /// Follows the edges that leave the vertex at place `k`.
    fn follow_leaving(
        &mut self,
        net: &Net,
        flow: &[u64],
        needed: &[bool],
        k: usize,
    ) -> Result<(), AllocError>
        requires { MayVisit net.now flow.now needed.now self.old k }
        ensures kept { OnOk result (KeepsSearch net.now flow.now needed.now self.old self.new) }
        ensures followed { OnOk result ((e : ℕ) → e < edge_count net.now → tail net.now e ≡ (entry_at self.old.entries.items k).vertex → IsFollowed net.now (is_set needed.now) (slice_index flow.now) self.new.marked.items (entry_at self.old.entries.items k).vertex e) }
    {
        let mut out = net.first_out(self.entries[k].vertex);
        while let Some(e) = out {
            self.follow(net, flow, needed, k, e)?;
            out = net.next_out(e);
        }
        Ok(())
    }

    /// Follows the edges that enter the vertex at place `k`.
    fn follow_entering(
        &mut self,
        net: &Net,
        entering: &Entering,
        flow: &[u64],
        needed: &[bool],
        k: usize,
    ) -> Result<(), AllocError>
        requires entering { EnterFrom net.now 0 entering.now.first.items entering.now.next.items }
        requires at { MayVisit net.now flow.now needed.now self.old k }
        ensures kept { OnOk result (KeepsSearch net.now flow.now needed.now self.old self.new) }
        ensures followed { OnOk result ((e : ℕ) → e < edge_count net.now → head net.now e ≡ (entry_at self.old.entries.items k).vertex → IsFollowed net.now (is_set needed.now) (slice_index flow.now) self.new.marked.items (entry_at self.old.entries.items k).vertex e) }
    {
        let mut into = entering.first[self.entries[k].vertex as usize];
        while let Some(e) = into {
            self.follow(net, flow, needed, k, e)?;
            into = entering.next[e as usize];
        }
        Ok(())
    }

    /// Follows the edges at the vertex at place `k`.
    fn visit(
        &mut self,
        net: &Net,
        entering: &Entering,
        flow: &[u64],
        needed: &[bool],
        k: usize,
    ) -> Result<(), AllocError>
        requires entering { EnterFrom net.now 0 entering.now.first.items entering.now.next.items }
        requires at { MayVisit net.now flow.now needed.now self.old k }
        ensures kept { OnOk result (KeepsSearch net.now flow.now needed.now self.old self.new) }
        ensures visited { OnOk result (IsVisited net.now (is_set needed.now) (slice_index flow.now) self.new.marked.items (entry_at self.old.entries.items k).vertex) }
    {
        self.follow_leaving(net, flow, needed, k)?;
        self.follow_entering(net, entering, flow, needed, k)?;
        Ok(())
    }

    /// Visits the entries in turn until one is a sink, and gives its place.
    fn run(
        &mut self,
        net: &Net,
        entering: &Entering,
        flow: &[u64],
        needed: &[bool],
    ) -> Result<Option<usize>, AllocError>
        requires entering { EnterFrom net.now 0 entering.now.first.items entering.now.next.items }
        requires flow { length flow.now ≡ edge_count net.now }
        requires needed { length needed.now ≡ edge_count net.now }
        requires sources { AreSourcesMarked net.now (edge_count net.now) self.old.marked.items }
        requires search { IsSearch net.now (is_set needed.now) (slice_index flow.now) self.old.entries.items self.old.marked.items }
        ensures search { OnOk result (IsSearch net.now (is_set needed.now) (slice_index flow.now) self.new.entries.items self.new.marked.items) }
        ensures ends { IfOk result (EndsAt net.now (is_set needed.now) (slice_index flow.now) self.new.entries.items self.new.marked.items) }
    {
        let mut k = 0;
        while k < self.entries.len() {
            if net.is_sink(self.entries[k].vertex) {
                return Ok(Some(k));
            }
            self.visit(net, entering, flow, needed, k)?;
            k += 1;
        }
        Ok(None)
    }

    /// Searches from the sources for a sink.
    pub fn sink_from_sources(
        alloc: Global,
        net: &Net,
        entering: &Entering,
        flow: &[u64],
        needed: &[bool],
    ) -> Result<Self, AllocError>
        requires entering { EnterFrom net.now 0 entering.now.first.items entering.now.next.items }
        requires flow { length flow.now ≡ edge_count net.now }
        requires needed { length needed.now ≡ edge_count net.now }
        ensures search { IfOk result (λ search. IsSearch net.now (is_set needed.now) (slice_index flow.now) search.entries.items search.marked.items) }
        ensures ends { IfOk result (λ search. EndsAt net.now (is_set needed.now) (slice_index flow.now) search.entries.items search.marked.items search.sink) }
    {
        let mut search = Search {
            entries: Vec::new(alloc),
            marked: vec![in alloc; false; net.vertices() as usize]?,
            sink: None,
        };
        search.enter_sources(net)?;
        search.sink = search.run(net, entering, flow, needed)?;
        Ok(search)
    }
}
