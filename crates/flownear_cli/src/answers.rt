//! What a block is answered.
ghost use Rattle.std.specs.Prelude.{◌≡◌, ◌≤◌, ◌∷◌, [], ◌++◌, List, ℕ, length, map, All, IfOk, OnOk, slice_index};
ghost use Rattle.decomposition.specs.Graph.{edge_count};
ghost use Rattle.error_flow.specs.Certificate.{ProvesNearest};
ghost use Rattle.error_flow.specs.Nearest.{IsNearest};
ghost use Rattle.graph_text.specs.Accepted.{IsAccepted};
ghost use Rattle.report_reading.specs.ReportText.{graph_line};
ghost use Rattle.flownear_cli.specs.RightTexts.{near_mode, weights_of, IsBodyText, IsTextFor};

use crate::lines::{add_found, add_line};
use error_flow::{Nearest, nearest};
use graph_text::{Block, RawGraph, Refusal};
use report_reading::words::name_of;
use std::alloc::{AllocError, Global};

/// The text for a block: its number and name, a nearest flow with its proof or a refusal, and a last line.
pub fn block_text(alloc: Global, block: &Block) -> Result<Vec<u8>, AllocError>
    requires valid { IfOk block.now.body (IsAccepted near_mode) }
    ensures { IfOk result (λ text. IsTextFor block.now text.items) }
{
    let mut text = Vec::new(alloc);
    add_graph(alloc, &mut text, block.index, block.name.as_slice())?;
    add_body(alloc, &mut text, &block.body)?;
    add_line(&mut text, b"end", &[])?;
    Ok(text)
}

/// Adds the line with the number and the name of a block.
fn add_graph(alloc: Global, text: &mut Vec<u8>, index: u64, name: &[u8]) -> Result<(), AllocError>
    ensures { OnOk result (text.new.items ≡ text.old.items ++ graph_line index name.now) }
{
    let number = format!(in alloc; "{index}")?;
    if name.is_empty() {
        add_line(text, b"graph", &[number.as_bytes()])
    } else {
        add_line(text, b"graph", &[number.as_bytes(), name])
    }
}

/// Adds the line of a refusal, or those of a nearest flow.
fn add_body(
    alloc: Global,
    text: &mut Vec<u8>,
    body: &Result<RawGraph, Refusal>,
) -> Result<(), AllocError>
    requires valid { IfOk body.now (IsAccepted near_mode) }
    ensures { OnOk result ((told : List ℕ) × IsBodyText body.now told × (text.new.items ≡ text.old.items ++ told)) }
{
    match body {
        Ok(graph) => {
            let found = nearest_of(alloc, graph)?;
            add_found(alloc, text, &graph.labels, &found)
        }
        Err(refusal) => {
            let line = refusal.line;
            let number = format!(in alloc; "{line}")?;
            add_line(text, b"refused", &[number.as_bytes(), name_of(refusal.why)])
        }
    }
}

/// The flow nearest to the weights of a graph.
fn nearest_of(alloc: Global, graph: &RawGraph) -> Result<Nearest, AllocError>
    requires valid { IsAccepted near_mode graph.now }
    ensures nearest { IfOk result (λ found. IsNearest graph.now.net (slice_index (weights_of graph.now)) (slice_index found.flow) found.change) }
    ensures proof { IfOk result (λ found. ProvesNearest graph.now.net (weights_of graph.now) found.flow found.levels found.change) }
{
    let weights = weights_of(alloc, graph)?;
    nearest(alloc, &graph.net, &weights)
}

/// The weights of a graph.
fn weights_of(alloc: Global, graph: &RawGraph) -> Result<Vec<u64>, AllocError>
    ensures { IfOk result (λ weights. weights.items ≡ weights_of graph.now) }
{
    graph
        .ranges
        .as_slice()
        .iter()
        .map(|range| range.lo)
        .collect(alloc)
}
