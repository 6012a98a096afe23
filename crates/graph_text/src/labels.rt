//! The names of the vertices of a graph, and its edges.

use indexmap::IndexSet;
use std::alloc::{AllocError, Global};
use std::marker::Model;

/// Vertex names and edges, each found by its number or by what it is.
#[derive(Drop)]
pub struct Labels {
    names: IndexSet<Vec<u8>>,
    edges: IndexSet<(u32, u32)>,
}

impl Model for Labels {
    ghost use Rattle.graph_text.specs.Labels.{LabelLists};

    ghost Value = { LabelLists };

    ghost use Rattle.graph_text.specs.KeptLabels.{shown, AreKept};

    ghost view = { shown };

    ghost invariant = { AreKept };
}

impl Labels {
    ghost use Rattle.std.specs.Prelude.{◌≡◌, ◌+◌, ◌^◌, ◌<◌, ◌++◌, ◌∷◌, [], ◌↔◌, true, false, length, position, is_some, Contains, IsTrue, IfOk, OnErr, MatchOption, MatchBool};
    ghost use Rattle.std.specs.Str.{bytes_eq};
    ghost use Rattle.decomposition.specs.Graph.{same_ends};
    ghost use Rattle.graph_text.specs.Labels.{empty_labels, name_at, tail_at, head_at, is_field, with_name, AreLabels};
    ghost use Rattle.graph_text.specs.Joined.{HasEdge};
    ghost use Rattle.graph_text.specs.Reading.{vertex_of};

    /// No name and no edge. Takes no memory.
    pub fn empty(alloc: Global) -> Labels
        ensures { result ≡ empty_labels }
    {
        Labels {
            names: IndexSet::new(alloc),
            edges: IndexSet::new(alloc),
        }
    }

    /// The number of vertices.
    pub fn vertices(&self) -> usize
        ensures vertices { result ≡ length self.now.names }
        ensures few { result < 2 ^ 32 }
        ensures labels { AreLabels self.now }
    {
        self.names.len()
    }

    /// The tail and the head of each edge, by edge number.
    pub fn edges(&self) -> &[(u32, u32)]
        ensures edges { result.now ≡ self.now.edges }
        ensures few { length result.now < 2 ^ 32 }
        ensures labels { AreLabels self.now }
    {
        self.edges.as_slice()
    }

    /// The vertex of this name.
    pub fn vertex(&self, name: &[u8]) -> Option<u32>
        ensures place { result ≡ position (bytes_eq name.now) self.now.names }
        ensures found { MatchOption result (¬ Contains self.now.names name.now)
            (λ v. (v < length self.now.names) × (name_at self.now v ≡ name.now)) }
        ensures labels { AreLabels self.now }
    {
        let v = self.names.get_index_of(name)?;
        Some(v as u32)
    }

    /// The name of a vertex.
    pub fn name(&self, v: u32) -> &[u8]
        requires { v < length self.now.names }
        ensures name { result.now ≡ name_at self.now v }
        ensures field { IsTrue (is_field result.now) }
    {
        self.names[v as usize].as_slice()
    }

    /// The edge from u to v.
    pub fn edge(&self, u: u32, v: u32) -> Option<u32>
        ensures place { result ≡ position (same_ends (u, v)) self.now.edges }
        ensures found { MatchOption result (¬ Contains self.now.edges (u, v))
            (λ e. (e < length self.now.edges) × (tail_at self.now e ≡ u) × (head_at self.now e ≡ v)) }
    {
        let e = self.edges.get_index_of(&(u, v))?;
        Some(e as u32)
    }

    /// The edge from the vertex of the first name to that of the second.
    pub(crate) fn edge_between(&self, tail: &[u8], head: &[u8]) -> Option<u32>
        ensures place { result ≡ position (same_ends (vertex_of self.now.names tail.now, vertex_of self.now.names head.now)) self.now.edges }
        ensures joined { IsTrue (is_some result) ↔ HasEdge self.now tail.now head.now }
    {
        let u = self.vertex(tail)?;
        let v = self.vertex(head)?;
        self.edge(u, v)
    }

    /// The vertex that an edge leaves.
    pub fn tail(&self, e: u32) -> u32
        requires { e < length self.now.edges }
        ensures tail { result ≡ tail_at self.now e }
        ensures vertex { result < length self.now.names }
    {
        self.edges.as_slice()[e as usize].0
    }

    /// The vertex that an edge enters.
    pub fn head(&self, e: u32) -> u32
        requires { e < length self.now.edges }
        ensures head { result ≡ head_at self.now e }
        ensures vertex { result < length self.now.names }
    {
        self.edges.as_slice()[e as usize].1
    }

    /// The vertex of this name, which gets the next number where it is new. After an `Err` nothing has changed.
    pub fn add_vertex(&mut self, name: &[u8]) -> Result<u32, AllocError>
        requires field { IsTrue (is_field name.now) }
        requires room { length self.old.names + 1 < 2 ^ 32 }
        ensures names { IfOk result (λ v. self.new ≡ record { names = with_name self.old.names name.now; edges = self.old.edges }) }
        ensures vertex { IfOk result (λ v. v ≡ vertex_of self.new.names name.now) }
        ensures within { IfOk result (λ v. v < length self.new.names) }
        ensures err { OnErr result (self.new ≡ self.old) }
    {
        if let Some(v) = self.vertex(name) {
            return Ok(v);
        }
        let alloc = *self.names.allocator();
        let (v, _) = self.names.insert_full(Vec::from_slice(alloc, name)?)?;
        Ok(v as u32)
    }

    /// Adds an edge and answers whether it is new. After an `Err` nothing has changed.
    pub fn add_edge(&mut self, tail: u32, head: u32) -> Result<bool, AllocError>
        requires tail { tail < length self.old.names }
        requires head { head < length self.old.names }
        requires room { length self.old.edges + 1 < 2 ^ 32 }
        ensures new { IfOk result (λ is_new. MatchBool is_new (¬ Contains self.old.edges (tail, head)) (Contains self.old.edges (tail, head))) }
        ensures added { IfOk result (λ is_new. MatchBool is_new
            (self.new ≡ record { names = self.old.names; edges = self.old.edges ++ (tail, head) ∷ [] }) (self.new ≡ self.old)) }
        ensures err { OnErr result (self.new ≡ self.old) }
    {
        let is_new = self.edges.insert((tail, head))?;
        Ok(is_new)
    }
}
