//! What a block is answered.
ghost use Rattle.std.specs.Prelude.{◌≡◌, ◌≤◌, ◌++◌, List, ℕ, length, slice_index, All, IfOk, OnOk};
ghost use Rattle.decomposition.specs.Flow.{Decomposes, IsBalanced};
ghost use Rattle.decomposition.specs.Graph.{edge_count, IsRun};
ghost use Rattle.graph_text.specs.Accepted.{IsAccepted};
ghost use Rattle.flowruns_cli.specs.RightTexts.{runs_mode, weights_of, TellsRun, TellsRuns, IsBodyText, IsTextFor};

use crate::lines::{add_paths, add_weighted};
use dag_net::{Answer, Net};
use graph_text::{Block, RawGraph, Refusal};
use greedy_paths::{GreedyFault, decompose};
use run_weight::{least_load, lighten};
use std::alloc::{AllocError, Global};
use text_lines::{add_graph_line, add_line, add_refused_line};

/// The text for a block: its number and name, the least loads of its runs or a refusal, and a last line.
pub fn block_text(alloc: Global, block: &Block) -> Result<Vec<u8>, AllocError>
    requires valid { IfOk block.now.body (IsAccepted runs_mode) }
    ensures { IfOk result (λ text. IsTextFor block.now text.items) }
{
    let mut text = Vec::new(alloc);
    add_graph_line(alloc, &mut text, block.index, block.name.as_slice())?;
    add_body(alloc, &mut text, &block.body)?;
    add_line(&mut text, b"end", &[])?;
    Ok(text)
}

/// Adds the line of a refusal, or those of the runs that are asked for.
fn add_body(
    alloc: Global,
    text: &mut Vec<u8>,
    body: &Result<RawGraph, Refusal>,
) -> Result<(), AllocError>
    requires valid { IfOk body.now (IsAccepted runs_mode) }
    ensures { OnOk result ((told : List ℕ) × IsBodyText body.now told × (text.new.items ≡ text.old.items ++ told)) }
{
    match body {
        Ok(graph) => add_runs(alloc, text, graph),
        Err(refusal) => add_refused_line(alloc, text, refusal),
    }
}

/// Adds for each run that is asked for its least load, and a decomposition that puts no more on it.
fn add_runs(alloc: Global, text: &mut Vec<u8>, graph: &RawGraph) -> Result<(), AllocError>
    requires valid { IsAccepted runs_mode graph.now }
    ensures { OnOk result ((told : List ℕ) × TellsRuns graph.now graph.now.runs told × (text.new.items ≡ text.old.items ++ told)) }
{
    let weights = weights_of(alloc, graph)?;
    let answer = decomposition_of(alloc, &graph.net, &weights)?;
    for k in 0..graph.runs.len() {
        let run = graph.runs.get(k).as_slice();
        add_run(alloc, text, graph, &weights, &answer, run)?;
    }
    Ok(())
}

/// Adds the least load of a run, and a decomposition that puts no more on it, made from any decomposition.
fn add_run(
    alloc: Global,
    text: &mut Vec<u8>,
    graph: &RawGraph,
    weights: &[u64],
    answer: &Answer,
    run: &[u32],
) -> Result<(), AllocError>
    requires valid { IsAccepted runs_mode graph.now }
    requires weights { weights.now ≡ weights_of graph.now }
    requires answer { Decomposes graph.now.net (slice_index weights.now) answer.now }
    requires run { IsRun graph.now.net run.now }
    ensures { OnOk result ((told : List ℕ) × TellsRun graph.now run.now told × (text.new.items ≡ text.old.items ++ told)) }
{
    let least = least_load(&graph.net, weights, run);
    let shown = lighten(alloc, &graph.net, weights, answer, run)?;
    add_weighted(alloc, text, b"least", least, &graph.labels, run)?;
    add_paths(alloc, text, &graph.labels, &shown)
}

/// A decomposition of balanced weights.
fn decomposition_of(alloc: Global, net: &Net, weights: &[u64]) -> Result<Answer, AllocError>
    requires one_each { length weights.now ≡ edge_count net.now }
    requires small { All (λ w. w ≤ 1000000000000) weights.now }
    requires balanced { IsBalanced net.now (slice_index weights.now) }
    ensures { IfOk result (Decomposes net.now (slice_index weights.now)) }
{
    prove!(net.edges() <= 4096);
    match decompose(alloc, net, weights) {
        Ok(answer) => Ok(answer),
        Err(GreedyFault::Memory) => Err(AllocError),
        Err(_) => unreachable!(),
    }
}

/// The weights of a graph.
fn weights_of(alloc: Global, graph: &RawGraph) -> Result<Vec<u64>, AllocError>
    ensures { IfOk result (λ weights. weights.items ≡ weights_of graph.now) }
{
    graph
        .ranges
        .as_slice()
        .iter()
        .map(|range| range.lo)
        .collect(alloc)
}
