//! The lines of a refusal and of routes.
ghost use Rattle.std.specs.Prelude.{◌≡◌, ◌++◌, IfOk, OnOk};
ghost use Rattle.flownodes_cli.specs.RouteText.{why_word, refused_line, route_line, routes_text};

use dag_net::Answer;
use node_weights::{NodeGraph, NodeWhy, route_of};
use std::alloc::{AllocError, Global};
use text_lines::{add_field, add_line};

/// The line of a refusal.
pub fn refusal_text(alloc: Global, line: u64, why: NodeWhy) -> Result<Vec<u8>, AllocError>
    ensures { IfOk result (λ text. text.items ≡ refused_line line why) }
{
    let mut text = Vec::new(alloc);
    let number = format!(in alloc; "{line}")?;
    add_line(&mut text, b"refused", &[number.as_bytes(), name_of(why)])?;
    Ok(text)
}

/// The name of a refusal.
fn name_of(why: NodeWhy) -> &'static [u8]
    ensures { result.now ≡ why_word why }
{
    match why {
        NodeWhy::LongLine => b"LongLine",
        NodeWhy::BadLine => b"BadLine",
        NodeWhy::BadWeight => b"BadWeight",
        NodeWhy::RepeatedNode => b"RepeatedNode",
        NodeWhy::UnknownNode => b"UnknownNode",
        NodeWhy::RepeatedEdge => b"RepeatedEdge",
        NodeWhy::TooMany => b"TooMany",
        NodeWhy::Cycle => b"Cycle",
    }
}

/// The lines of the routes of paths, and the last line.
pub fn routes_text(alloc: Global, graph: &NodeGraph, paths: &Answer) -> Result<Vec<u8>, AllocError>
    ensures { IfOk result (λ text. text.items ≡ routes_text graph.now paths.now) }
{
    let mut text = Vec::new(alloc);
    for k in 0..paths.len() {
        let path = paths.path(k).as_slice();
        add_route(alloc, &mut text, graph, path, paths.weight(k))?;
    }
    add_line(&mut text, b"done", &[])?;
    Ok(text)
}

/// Adds the line of the route of a path.
fn add_route(
    alloc: Global,
    text: &mut Vec<u8>,
    graph: &NodeGraph,
    path: &[u32],
    weight: u64,
) -> Result<(), AllocError>
    ensures { OnOk result (text.new.items ≡ text.old.items ++ route_line graph.now (path.now, weight)) }
{
    let digits = format!(in alloc; "{weight}")?;
    let route = route_of(alloc, graph, path)?;
    text.extend_from_slice(b"route")?;
    add_field(text, digits.as_bytes())?;
    for v in route.as_slice() {
        add_field(text, graph.name(*v))?;
    }
    text.push(b'\n')?;
    Ok(())
}
