//! A node graph while its lines come.
ghost use Rattle.std.specs.Prelude.{◌≡◌, ◌==◌, ◌+◌, ◌≤◌, ◌↔◌, ℕ, true, false, List, [], ◌∷◌, ◌++◌, ◌<◌, length, vec_len, All, Contains, IsTrue, IfOk, OnOk, IfErr, MatchOption, codes};
ghost use Rattle.std.specs.Borrow.{Bor};
ghost use Rattle.std.specs.List.{list_any};
ghost use Rattle.graph_text.specs.Labels.{is_field};
ghost use Rattle.graph_text.specs.Lines.{fields_of};
ghost use Rattle.graph_text.specs.Reading.{value_of};
ghost use Rattle.node_weights.specs.Kept.{IsNodeGraph};
ghost use Rattle.node_weights.specs.NodeText.{most_lines, content_lines, has_node, read_lines, cause_after, RefusesAs};

use crate::graph::NodeGraph;
use crate::node_fault::{LineFault, NodeFault, NodeWhy};
use dag_net::{BuildFault, Net};
use graph_text::Labels;
use graph_text::fields::{fields, is_blank_text, is_hash_text, parse_weight};
use std::alloc::{AllocError, Global};

/// The most bytes that a line may have.
const MOST_BYTES: usize = 65_536;

/// The most lines that are not ignored.
const MOST_LINES: usize = 4_096;

/// The names, the weights, the edges, and the number of the line of each edge.
#[derive(Drop)]
pub(crate) struct NodeDraft {
    labels: Labels,
    weights: Vec<u64>,
    edge_numbers: Vec<u64>,
    ghost few: { length labels.names + length labels.edges ≤ most_lines },
}

impl NodeDraft {
    ghost use Rattle.node_weights.specs.Draft.{HasRoom, IsEdgeAmong, HoldsLines, HoldsAll, Takes, IsFaultOf, HasFields, texts};

    /// No line yet. Takes no memory.
    pub fn new(alloc: Global) -> NodeDraft
        ensures { HoldsLines [] result }
    {
        NodeDraft {
            labels: Labels::empty(alloc),
            weights: Vec::new(alloc),
            edge_numbers: Vec::new(alloc),
        }
    }

    /// Whether a node line has this name.
    fn has_node(&self, name: &[u8]) -> bool
        ensures { IsTrue result ↔ Contains self.now.labels.names name.now }
    {
        self.labels.vertex(name).is_some()
    }

    /// Whether there is an edge from u to v.
    fn has_edge(&self, u: u32, v: u32) -> bool
        ensures { IsTrue result ↔ Contains self.now.labels.edges (u, v) }
    {
        self.labels.edge(u, v).is_some()
    }

    /// Whether as many lines are not ignored as may be.
    fn is_full(&self) -> bool
        ensures full { (lines : List (List ℕ)) → HoldsLines lines self.now → result ≡ (length (content_lines lines) == most_lines) }
        ensures room { result ≡ false → HasRoom self.now.labels }
    {
        self.labels.vertices() + self.labels.edges().len() == MOST_LINES
    }

    /// The vertices of these names.
    fn ends(&self, tail: &[u8], head: &[u8]) -> Option<(u32, u32)>
        ensures { MatchOption result (¬ (Contains self.now.labels.names tail.now × Contains self.now.labels.names head.now))
            (IsEdgeAmong self.now.labels tail.now head.now) }
    {
        Some((self.labels.vertex(tail)?, self.labels.vertex(head)?))
    }

    /// Adds a vertex of a new name.
    fn insert_node(&mut self, name: &[u8], weight: u64) -> Result<(), AllocError>
        requires field { IsTrue (is_field name.now) }
        requires room { HasRoom self.old.labels }
        ensures { OnOk result ((lines : List (List ℕ)) (line field : List ℕ) → HoldsLines lines self.old
            → fields_of line ≡ codes "node" ∷ name.now ∷ field ∷ [] → value_of field ≡ weight
            → has_node lines name.now ≡ false → HoldsLines (lines ++ line ∷ []) self.new) }
    {
        self.weights.push(weight)?;
        self.labels.add_vertex(name)?;
        Ok(())
    }

    /// Adds a new edge, of the line of this number.
    fn insert_edge(&mut self, number: u64, u: u32, v: u32) -> Result<(), AllocError>
        requires ends { (u < length self.old.labels.names) × (v < length self.old.labels.names) }
        requires room { HasRoom self.old.labels }
        ensures { OnOk result ((lines : List (List ℕ)) (line tail head : List ℕ) → HoldsLines lines self.old → number ≡ length lines + 1
            → fields_of line ≡ codes "edge" ∷ tail ∷ head ∷ [] → IsEdgeAmong self.old.labels tail head (u, v)
            → ¬ Contains self.old.labels.edges (u, v) → HoldsLines (lines ++ line ∷ []) self.new) }
    {
        self.edge_numbers.push(number)?;
        // It is new, as is required.
        let _is_new = self.labels.add_edge(u, v)?;
        Ok(())
    }

    /// Takes the line of a node. After an `Err` the draft is of no use.
    fn add_node(&mut self, name: &[u8], weight: &[u8]) -> Result<(), LineFault>
        requires { IsTrue (is_field name.now) }
        ensures ok { OnOk result ((lines : List (List ℕ)) (line : List ℕ) → HoldsLines lines self.old
            → HasFields (codes "node" ∷ name.now ∷ weight.now ∷ []) line → Takes lines line self.new) }
        ensures err { IfErr result (λ fault. (lines : List (List ℕ)) (line : List ℕ) → HoldsLines lines self.old
            → HasFields (codes "node" ∷ name.now ∷ weight.now ∷ []) line → IsFaultOf (cause_after lines line) fault) }
    {
        let Some(weight) = parse_weight(weight) else {
            return Err(LineFault::Bad(NodeWhy::BadWeight));
        };
        if self.has_node(name) {
            return Err(LineFault::Bad(NodeWhy::RepeatedNode));
        }
        if self.is_full() {
            return Err(LineFault::Bad(NodeWhy::TooMany));
        }
        self.insert_node(name, weight)?;
        Ok(())
    }

    /// Takes the line of an edge, which has this number. After an `Err` the draft is of no use.
    fn add_edge(&mut self, number: u64, tail: &[u8], head: &[u8]) -> Result<(), LineFault>
        ensures ok { OnOk result ((lines : List (List ℕ)) (line : List ℕ) → HoldsLines lines self.old → number ≡ length lines + 1
            → HasFields (codes "edge" ∷ tail.now ∷ head.now ∷ []) line → Takes lines line self.new) }
        ensures err { IfErr result (λ fault. (lines : List (List ℕ)) (line : List ℕ) → HoldsLines lines self.old
            → HasFields (codes "edge" ∷ tail.now ∷ head.now ∷ []) line → IsFaultOf (cause_after lines line) fault) }
    {
        let Some((u, v)) = self.ends(tail, head) else {
            return Err(LineFault::Bad(NodeWhy::UnknownNode));
        };
        if self.has_edge(u, v) {
            return Err(LineFault::Bad(NodeWhy::RepeatedEdge));
        }
        if self.is_full() {
            return Err(LineFault::Bad(NodeWhy::TooMany));
        }
        self.insert_edge(number, u, v)?;
        Ok(())
    }

    /// Takes the line of this number, which has these fields. After an `Err` the draft is of no use.
    fn take_fields(&mut self, number: u64, fields: &[&[u8]]) -> Result<(), LineFault>
        requires { All (λ (field : Bor (List ℕ)). IsTrue (is_field field.now)) fields.now }
        ensures ok { OnOk result ((lines : List (List ℕ)) (line : List ℕ) → HoldsLines lines self.old → number ≡ length lines + 1
            → HasFields (texts fields.now) line → Takes lines line self.new) }
        ensures err { IfErr result (λ fault. (lines : List (List ℕ)) (line : List ℕ) → HoldsLines lines self.old
            → HasFields (texts fields.now) line → IsFaultOf (cause_after lines line) fault) }
    {
        if fields.len() != 3 {
            return Err(LineFault::Bad(NodeWhy::BadLine));
        }
        if fields[0] == b"node".as_slice() {
            return self.add_node(fields[1], fields[2]);
        }
        if fields[0] == b"edge".as_slice() {
            return self.add_edge(number, fields[1], fields[2]);
        }
        Err(LineFault::Bad(NodeWhy::BadLine))
    }

    /// Takes the line of this number. After an `Err` the draft is of no use.
    pub fn take_line(&mut self, alloc: Global, number: u64, line: &[u8]) -> Result<(), LineFault>
        requires { list_any (λ b. b == 10) line.now ≡ false }
        ensures ok { OnOk result ((lines : List (List ℕ)) → HoldsLines lines self.old → number ≡ length lines + 1
            → Takes lines line.now self.new) }
        ensures err { IfErr result (λ fault. (lines : List (List ℕ)) → HoldsLines lines self.old → IsFaultOf (cause_after lines line.now) fault) }
    {
        if is_blank_text(line) {
            return Ok(());
        }
        if line.len() > MOST_BYTES {
            return Err(LineFault::Bad(NodeWhy::LongLine));
        }
        if is_hash_text(line) {
            return Ok(());
        }
        let fields = fields(alloc, line)?;
        self.take_fields(number, &fields)
    }

    /// The graph, or the refusal of the first edge that closes a cycle.
    pub fn into_graph(self, alloc: Global) -> Result<NodeGraph, NodeFault>
        requires { (lines : List (List ℕ)) × HoldsAll lines self }
        ensures ok { IfOk result (λ graph. (lines : List (List ℕ)) → HoldsAll lines self → read_lines lines ≡ Ok graph) }
        ensures sound { IfOk result IsNodeGraph }
        ensures err { IfErr result (λ fault. (lines : List (List ℕ)) → HoldsAll lines self → RefusesAs (read_lines lines) fault) }
    {
        let vertices = self.labels.vertices() as u32;
        match Net::build(alloc, vertices, self.labels.edges()) {
            Ok(_) => Ok(NodeGraph {
                labels: self.labels,
                weights: self.weights,
            }),
            Err(BuildFault::Cycle { edge }) => Err(NodeFault::Refused {
                line: self.edge_numbers[edge as usize],
                why: NodeWhy::Cycle,
            }),
            Err(BuildFault::Memory) => Err(NodeFault::Memory),
            Err(BuildFault::Bounds { edge: _ }) => unreachable!(),
            Err(BuildFault::Repeated { edge: _ }) => unreachable!(),
        }
    }
}
