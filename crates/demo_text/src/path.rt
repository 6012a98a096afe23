//! The paths that are drawn.
ghost use Rattle.std.specs.Prelude.{◌≡◌, map, IfOk, OnOk};
ghost use Rattle.std.specs.List.{list_any};
ghost use Rattle.demo_text.specs.Demo.{path_after, after_path, paths_after, after_paths, edges_along, ends_of, same_names};

use crate::draws::Draws;
use crate::edge::Edge;
use crate::vertex::Vertex;
use std::alloc::{AllocError, Global};

/// How many vertices are drawn from next to the source, and next to the sink.
const CHOICES: u32 = 3;

/// The greatest weight of a path.
const MOST_WEIGHT: u32 = 20;

/// A path from the source by one of three vertices and another of three to the sink, and its weight.
#[derive(Clone, Copy)]
pub struct DemoPath {
    pub first: u32,
    pub second: u32,
    pub weight: u32,
}

impl DemoPath {
    /// The path that the next three draws give.
    pub fn from_draws(draws: &mut Draws) -> DemoPath
        ensures path { result ≡ path_after draws.old }
        ensures draws { draws.new ≡ after_path draws.old }
    {
        let first = draws.draw(CHOICES);
        let second = draws.draw(CHOICES);
        let weight = 1 + draws.draw(MOST_WEIGHT);
        DemoPath {
            first,
            second,
            weight,
        }
    }

    /// The edges along the path.
    pub fn edges(self) -> [Edge; 3]
        ensures { map ends_of result ≡ edges_along self }
    {
        let first = Vertex::First(self.first);
        let second = Vertex::Second(self.second);
        [
            Edge {
                tail: Vertex::Source,
                head: first,
            },
            Edge {
                tail: first,
                head: second,
            },
            Edge {
                tail: second,
                head: Vertex::Sink,
            },
        ]
    }

    /// Whether an edge is along the path.
    pub fn uses(self, edge: Edge) -> bool
        ensures { result ≡ list_any (same_names (ends_of edge)) (edges_along self) }
    {
        let [first, second, third] = self.edges();
        edge.is(first) || edge.is(second) || edge.is(third)
    }
}

/// So many paths, one after another.
pub fn draw_paths(alloc: Global, draws: &mut Draws, count: u32) -> Result<Vec<DemoPath>, AllocError>
    ensures paths { IfOk result (λ paths. paths.items ≡ paths_after count draws.old) }
    ensures draws { OnOk result (draws.new ≡ after_paths count draws.old) }
{
    let mut paths = Vec::new(alloc);
    for _ in 0..count {
        paths.push(DemoPath::from_draws(draws))?;
    }
    Ok(paths)
}
