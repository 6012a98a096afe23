//! The edges of the generated graphs.
ghost use Rattle.std.specs.Prelude.{◌≡◌};
ghost use Rattle.demo_text.specs.Demo.{ends_of, same_names};

use crate::vertex::Vertex;

/// An edge of a generated graph.
#[derive(Clone, Copy)]
pub struct Edge {
    pub tail: Vertex,
    pub head: Vertex,
}

impl Edge {
    /// Whether two edges have the same ends.
    pub fn is(self, other: Edge) -> bool
        ensures { result ≡ same_names (ends_of self) (ends_of other) }
    {
        self.tail.is(other.tail) && self.head.is(other.head)
    }
}
