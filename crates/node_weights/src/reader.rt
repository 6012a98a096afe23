//! The reader of node graphs.
ghost use Rattle.std.specs.Prelude.{◌≡◌, ◌==◌, ◌+◌, ◌<◌, ◌≤◌, ◌∷◌, length, false, Ok, IfOk, IfErr, OnOk, List, ℕ};
ghost use Rattle.std.specs.List.{list_any, position_or_len};
ghost use Rattle.graph_text.specs.Lines.{lines_of, without_return};
ghost use Rattle.node_weights.specs.Draft.{HoldsLines, HoldsAll, Takes};
ghost use Rattle.node_weights.specs.Kept.{IsNodeGraph};
ghost use Rattle.node_weights.specs.NodeText.{read, cause_after, RefusesAs};

use crate::draft::NodeDraft;
use crate::graph::NodeGraph;
use crate::node_fault::{LineFault, NodeFault};
use std::alloc::Global;

/// The place of the first line feed, or the number of bytes.
fn line_end(bytes: &[u8]) -> usize
    ensures place { result ≡ position_or_len (λ b. b == 10) bytes.now }
    ensures within { result ≤ length bytes.now }
{
    bytes
        .iter()
        .position(|byte| *byte == b'\n')
        .unwrap_or(bytes.len())
}

/// The bytes without the one carriage return at their end, if they have one.
fn without_return(bytes: &[u8]) -> &[u8]
    ensures { result.now ≡ without_return bytes.now }
{
    let n = bytes.len();
    if n > 0 && bytes[n - 1] == b'\r' {
        &bytes[..n - 1]
    } else {
        bytes
    }
}

/// The first line of a text, without what ends it, and the bytes behind it.
fn split_line(text: &[u8]) -> (&[u8], &[u8])
    requires { 0 < length text.now }
    ensures lines { lines_of text.now ≡ result.0.now ∷ lines_of result.1.now }
    ensures one_line { list_any (λ b. b == 10) result.0.now ≡ false }
    ensures less { length result.1.now < length text.now }
{
    let end = line_end(text);
    let behind = &text[(end + 1).min(text.len())..];
    (without_return(&text[..end]), behind)
}

/// The draft of all lines of a text.
fn read_lines(alloc: Global, text: &[u8]) -> Result<NodeDraft, NodeFault>
    ensures ok { IfOk result (HoldsAll (lines_of text.now)) }
    ensures err { IfErr result (RefusesAs (read text.now)) }
{
    let mut draft = NodeDraft::new(alloc);
    let mut rest = text;
    let mut number: u64 = 1;
    while !rest.is_empty() {
        let (line, behind) = split_line(rest);
        match draft.take_line(alloc, number, line) {
            Ok(()) => {}
            Err(LineFault::Bad(why)) => return Err(NodeFault::Refused { line: number, why }),
            Err(LineFault::Memory) => return Err(NodeFault::Memory),
        }
        rest = behind;
        number += 1;
    }
    Ok(draft)
}

/// The node graph of a text: its vertices are numbered in the order of their lines, and its edges are in the order of theirs.
/// Takes time linear in the text, and memory for the graph and one line.
pub fn read_nodes(alloc: Global, text: &[u8]) -> Result<NodeGraph, NodeFault>
    ensures ok { IfOk result (λ graph. read text.now ≡ Ok graph) }
    ensures sound { IfOk result IsNodeGraph }
    ensures err { IfErr result (RefusesAs (read text.now)) }
{
    let draft = read_lines(alloc, text)?;
    draft.into_graph(alloc)
}
