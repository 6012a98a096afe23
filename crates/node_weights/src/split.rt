//! The text of the split graph: each vertex becomes an edge from its entry to its exit.
ghost use Rattle.std.specs.Prelude.{◌≡◌, ◌<◌, ◌*◌, [], ◌∷◌, ◌++◌, length, map, flat_map, decimal, IfOk, OnOk};
ghost use Rattle.std.specs.List.{range_with_len};
ghost use Rattle.report_reading.specs.ReportText.{line};
ghost use Rattle.node_routes.specs.Split.{heaviest};
ghost use Rattle.node_weights.specs.SplitText.{named_vertex, named_link, edge_fields, split_text};

use crate::graph::NodeGraph;
use flow_io::Bytes;
use std::alloc::{AllocError, Global};
use text_lines::add_line;

/// The greatest of 1 and all weights.
fn heaviest(weights: &[u64]) -> u64
    ensures { result ≡ heaviest weights.now }
{
    let mut most = 1;
    for weight in weights {
        most = most.max(*weight);
    }
    most
}

/// A name after a letter.
fn with_letter(alloc: Global, letter: u8, name: &[u8]) -> Result<Vec<u8>, AllocError>
    ensures { IfOk result (λ text. text.items ≡ letter ∷ name.now) }
{
    let mut text = Vec::new(alloc);
    text.push(letter)?;
    text.extend_from_slice(name)?;
    Ok(text)
}

/// Adds the line with the number of vertices of the split graph.
fn add_count(alloc: Global, text: &mut Vec<u8>, graph: &NodeGraph) -> Result<(), AllocError>
    ensures { OnOk result (text.new.items ≡ text.old.items ++ line (decimal (2 * length graph.now.names) ∷ [])) }
{
    let count = 2 * graph.len() as u64;
    let digits = format!(in alloc; "{count}")?;
    add_line(text, digits.as_bytes(), &[])
}

/// Adds the line of the edge of a vertex.
fn add_vertex(
    alloc: Global,
    text: &mut Vec<u8>,
    graph: &NodeGraph,
    v: u32,
) -> Result<(), AllocError>
    requires { v < length graph.now.names }
    ensures { OnOk result (text.new.items ≡ text.old.items ++ line (edge_fields (named_vertex graph.now v))) }
{
    let entry = with_letter(alloc, b'i', graph.name(v))?;
    let exit = with_letter(alloc, b'o', graph.name(v))?;
    let weight = graph.weights()[v as usize];
    let digits = format!(in alloc; "{weight}")?;
    add_line(text, &entry, &[&exit, digits.as_bytes(), digits.as_bytes()])
}

/// Adds a line for each vertex.
fn add_vertices(alloc: Global, text: &mut Vec<u8>, graph: &NodeGraph) -> Result<(), AllocError>
    ensures { OnOk result (text.new.items ≡ text.old.items
        ++ flat_map line (map (λ v. edge_fields (named_vertex graph.now v)) (range_with_len 0 (length graph.now.names)))) }
{
    for v in 0..graph.len() {
        add_vertex(alloc, text, graph, v)?;
    }
    Ok(())
}

/// Adds the line of the edge that an edge becomes.
fn add_link(
    alloc: Global,
    text: &mut Vec<u8>,
    graph: &NodeGraph,
    edge: (u32, u32),
    most: u64,
) -> Result<(), AllocError>
    requires ends { (edge.0 < length graph.now.names) × (edge.1 < length graph.now.names) }
    requires heaviest { most ≡ heaviest graph.now.weights }
    ensures { OnOk result (text.new.items ≡ text.old.items ++ line (edge_fields (named_link graph.now edge))) }
{
    let exit = with_letter(alloc, b'o', graph.name(edge.0))?;
    let entry = with_letter(alloc, b'i', graph.name(edge.1))?;
    let digits = format!(in alloc; "{most}")?;
    add_line(text, &exit, &[&entry, b"0", digits.as_bytes()])
}

/// Adds a line for each edge.
fn add_links(alloc: Global, text: &mut Vec<u8>, graph: &NodeGraph) -> Result<(), AllocError>
    ensures { OnOk result (text.new.items ≡ text.old.items ++ flat_map line (map (λ e. edge_fields (named_link graph.now e)) graph.now.edges)) }
{
    let most = heaviest(graph.weights());
    for edge in graph.edges() {
        add_link(alloc, text, graph, *edge, most)?;
    }
    Ok(())
}

/// The text of the split graph in the format of graphs: its name, its number of vertices, a line for each vertex, and one for each
/// edge. Takes time and memory linear in the graph with its names.
pub fn split_text(alloc: Global, graph: &NodeGraph) -> Result<Bytes, AllocError>
    ensures { IfOk result (λ text. text ≡ split_text graph.now) }
{
    let mut text = Vec::new(alloc);
    add_line(&mut text, b"#", &[b"nodes"])?;
    add_count(alloc, &mut text, graph)?;
    add_vertices(alloc, &mut text, graph)?;
    add_links(alloc, &mut text, graph)?;
    Ok(Bytes::from_vec(text))
}
