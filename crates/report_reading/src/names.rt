//! The vertices and the edges that a line names.
ghost use Rattle.std.specs.Prelude.{◌≡◌, IfOk};
ghost use Rattle.report_reading.specs.LineFields.{texts, edge_in, edges_in};

use crate::fields::field_at;
use dag_net::Ids;
use graph_text::Labels;
use std::alloc::{AllocError, Global};

/// The edge from the vertex of one name to that of another.
pub(crate) fn edge_in(labels: &Labels, tail: &[u8], head: &[u8]) -> Option<u32>
    ensures { result ≡ edge_in labels.now tail.now head.now }
{
    let tail = labels.vertex(tail)?;
    let head = labels.vertex(head)?;
    labels.edge(tail, head)
}

/// The edges along names, one from each to the next.
pub(crate) fn edges_in(
    alloc: Global,
    labels: &Labels,
    names: &[&[u8]],
) -> Result<Option<Ids>, AllocError>
    ensures { IfOk result (λ edges. edges ≡ edges_in labels.now (texts names.now)) }
{
    let mut edges = Ids::new(alloc);
    for i in 1..names.len() {
        match edge_in(labels, field_at(names, i - 1), field_at(names, i)) {
            Some(edge) => edges.push(edge)?,
            None => return Ok(None),
        }
    }
    Ok(Some(edges))
}
