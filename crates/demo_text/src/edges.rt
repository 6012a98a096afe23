//! The edges that paths use, their weights, and the number of their ends.
ghost use Rattle.std.specs.Prelude.{◌≡◌, ◌≤◌, map, flat_map, length, IfOk, OnOk};
ghost use Rattle.std.specs.List.{list_any};
ghost use Rattle.std.specs.Str.{bytes_eq};
ghost use Rattle.graph_text.specs.Labels.{with_name};
ghost use Rattle.graph_text.specs.Reading.{distinct};
ghost use Rattle.demo_text.specs.Demo.{name_of, ends_of, edges_along, edges_used, weight_on, both_ends, same_names};
ghost use Rattle.demo_text.specs.Uses.{with_use, with_uses};

use crate::edge::Edge;
use crate::path::DemoPath;
use crate::vertex::Vertex;
use std::alloc::{AllocError, Global};

/// Whether an edge is among others.
fn has_edge(used: &[Edge], edge: Edge) -> bool
    ensures { result ≡ list_any (λ known. same_names (ends_of edge) (ends_of known)) used.now }
{
    used.iter().any(|known| edge.is(*known))
}

/// Adds an edge, unless it is there.
fn add_edge(used: &mut Vec<Edge>, edge: Edge) -> Result<(), AllocError>
    ensures { OnOk result (map ends_of used.new.items ≡ with_use (map ends_of used.old.items) (ends_of edge)) }
{
    if has_edge(used.as_slice(), edge) {
        return Ok(());
    }
    used.push(edge)?;
    Ok(())
}

/// Adds the edges along a path.
fn add_path(used: &mut Vec<Edge>, path: DemoPath) -> Result<(), AllocError>
    ensures { OnOk result (map ends_of used.new.items ≡ with_uses (map ends_of used.old.items) (edges_along path)) }
{
    let [first, second, third] = path.edges();
    add_edge(used, first)?;
    add_edge(used, second)?;
    add_edge(used, third)
}

/// The edges that paths use, each at its first use.
pub fn edges_used(alloc: Global, paths: &[DemoPath]) -> Result<Vec<Edge>, AllocError>
    ensures { IfOk result (λ used. map ends_of used.items ≡ edges_used paths.now) }
{
    let mut used = Vec::new(alloc);
    for path in paths {
        add_path(&mut used, *path)?;
    }
    Ok(used)
}

/// The sum of the weights of the paths that use an edge.
pub fn weight_on(paths: &[DemoPath], edge: Edge) -> u64
    requires { length paths.now ≤ 5 }
    ensures { result ≡ weight_on paths.now (ends_of edge) }
{
    let mut weight = 0;
    for path in paths {
        if path.uses(edge) {
            weight += u64::from(path.weight);
        }
    }
    weight
}

/// Whether a vertex is among others.
fn has_vertex(known: &[Vertex], vertex: Vertex) -> bool
    ensures { result ≡ list_any (λ other. bytes_eq (name_of vertex) (name_of other)) known.now }
{
    known.iter().any(|other| vertex.is(*other))
}

/// Adds a vertex, unless it is there.
fn add_vertex(known: &mut Vec<Vertex>, vertex: Vertex) -> Result<(), AllocError>
    ensures { OnOk result (map name_of known.new.items ≡ with_name (map name_of known.old.items) (name_of vertex)) }
{
    if has_vertex(known.as_slice(), vertex) {
        return Ok(());
    }
    known.push(vertex)?;
    Ok(())
}

/// How many vertices are ends of edges.
pub fn count_vertices(alloc: Global, edges: &[Edge]) -> Result<usize, AllocError>
    ensures { IfOk result (λ count. count ≡ length (distinct (flat_map both_ends (map ends_of edges.now)))) }
{
    let mut known = Vec::new(alloc);
    for edge in edges {
        add_vertex(&mut known, edge.tail)?;
        add_vertex(&mut known, edge.head)?;
    }
    Ok(known.len())
}
