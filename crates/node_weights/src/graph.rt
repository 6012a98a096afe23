//! Node graphs.

use graph_text::Labels;
use std::marker::Model;

/// A directed graph without cycles whose vertices have names and weights.
#[derive(Drop)]
pub struct NodeGraph {
    pub(crate) labels: Labels,
    pub(crate) weights: Vec<u64>,
}

impl Model for NodeGraph {
    ghost use Rattle.node_weights.specs.NodeText.{NodeLists};

    ghost Value = { NodeLists };

    ghost use Rattle.node_weights.specs.Kept.{shown, IsKept};

    ghost view = { shown };

    ghost invariant = { IsKept };
}

impl NodeGraph {
    ghost use Rattle.std.specs.Prelude.{◌≡◌, ◌<◌, [], length, slice_index_or, IsTrue};
    ghost use Rattle.graph_text.specs.Labels.{is_field};
    ghost use Rattle.node_weights.specs.Kept.{IsNodeGraph};

    /// The number of vertices.
    pub fn len(&self) -> u32
        ensures len { result ≡ length self.now.names }
        ensures graph { IsNodeGraph self.now }
    {
        self.labels.vertices() as u32
    }

    /// The name of a vertex.
    pub fn name(&self, v: u32) -> &[u8]
        requires { v < length self.now.names }
        ensures name { result.now ≡ slice_index_or self.now.names v [] }
        ensures field { IsTrue (is_field result.now) }
    {
        self.labels.name(v)
    }

    /// The weights of the vertices, by number.
    pub(crate) fn weights(&self) -> &[u64]
        ensures weights { result.now ≡ self.now.weights }
        ensures graph { IsNodeGraph self.now }
    {
        self.weights.as_slice()
    }

    /// The tail and the head of each edge, in order.
    pub(crate) fn edges(&self) -> &[(u32, u32)]
        ensures edges { result.now ≡ self.now.edges }
        ensures graph { IsNodeGraph self.now }
    {
        self.labels.edges()
    }
}
