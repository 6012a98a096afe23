//! Blocks of a graph text, and the graphs that they are read as.

use crate::labels::Labels;
use dag_net::{IdLists, Net, Ranges};
use flow_io::Bytes;
use report_terms::Refusal;

/// A graph as it was read: its names, its net, the range of each edge, and the runs that must be covered.
#[derive(Drop)]
pub struct RawGraph {
    pub labels: Labels,
    pub net: Net,
    pub ranges: Ranges,
    pub runs: IdLists,
}

/// A block: its number and the number of its first line, both counted from 1, its name, and its graph or refusal.
#[derive(Drop)]
pub struct Block {
    pub index: u64,
    pub line: u64,
    pub name: Bytes,
    pub body: Result<RawGraph, Refusal>,
}
