//! Blocks of a text, as the reader hands them out.

use dag_net::Mode;
use graph_text::{Block, BlockReader, Labels, RawGraph};
use std::alloc::Global;
use std::test::Fail;

/// The first block of a text.
fn first_block(alloc: Global, text: &str) -> Result<Block, Fail> {
    let mut reader = BlockReader::new(alloc, Mode::Exact)?;
    reader.feed(text.as_bytes())?;
    if let Some(block) = reader.take() {
        return Ok(block);
    }
    reader.finish()?;
    match reader.take() {
        Some(block) => Ok(block),
        None => Err(Fail::new("a block is wanted")),
    }
}

/// The graph of the first block of a text.
pub fn first_graph(alloc: Global, text: &str) -> Result<RawGraph, Fail> {
    let Block { body, .. } = first_block(alloc, text)?;
    match body {
        Ok(graph) => Ok(graph),
        Err(_) => Err(Fail::new("a graph is wanted")),
    }
}

/// The labels of the first block of a text, or none for the empty text.
pub fn labels_of(alloc: Global, text: &str) -> Result<Labels, Fail> {
    if text.is_empty() {
        return Ok(Labels::empty(alloc));
    }
    let RawGraph { labels, .. } = first_graph(alloc, text)?;
    Ok(labels)
}
