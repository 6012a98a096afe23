//! The widest path of what is left of a flow, and of the paths as wide the first.

ghost use Rattle.std.specs.Prelude.{◌≡◌, ◌↔◌, ◌<◌, ◌≤◌, length, slice_index, IsTrue, IfOk};
ghost use Rattle.decomposition.specs.Graph.{edge_count, IsNet};
ghost use Rattle.greedy_paths.specs.Widths.{AreWidths};
ghost use Rattle.greedy_paths.specs.Widest.{IsWide, IsWideFromSource, IsWideOutOf, IsFirstEdge, IsGreatestWidth, IsFirstPath, IsWidestFound};

use crate::widths::widths_to_sinks;
use dag_net::{Ids, Net};
use std::alloc::{AllocError, Global};

/// Whether a walk of this width to a sink begins with the edge.
fn is_wide(net: &Net, rest: &[u64], widths: &[u64], width: u64, e: u32) -> bool
    requires edge { e < edge_count net.now }
    requires one_each { length rest.now ≡ edge_count net.now }
    requires widths { AreWidths net.now (slice_index rest.now) widths.now }
    requires positive { 1 ≤ width }
    ensures { IsTrue result ↔ IsWide net.now (slice_index rest.now) width e }
{
    width <= rest[e as usize] && width <= widths[net.head(e) as usize]
}

/// The greatest width of a path, 0 where no path is left.
fn greatest_width(net: &Net, rest: &[u64], widths: &[u64]) -> u64
    requires one_each { length rest.now ≡ edge_count net.now }
    requires widths { AreWidths net.now (slice_index rest.now) widths.now }
    ensures greatest { IsGreatestWidth net.now (slice_index rest.now) result }
    ensures net { IsNet net.now }
{
    let mut width = 0;
    for e in 0..net.edges() {
        let v = net.tail(e);
        if net.is_source(v) {
            width = width.max(widths[v as usize]);
        }
    }
    width
}

/// The first edge with which a path of this width begins.
fn first_wide(net: &Net, rest: &[u64], widths: &[u64], width: u64) -> Option<u32>
    requires one_each { length rest.now ≡ edge_count net.now }
    requires widths { AreWidths net.now (slice_index rest.now) widths.now }
    requires positive { 1 ≤ width }
    ensures { IsFirstEdge net.now (IsWideFromSource net.now (slice_index rest.now) width) result }
{
    for e in 0..net.edges() {
        if net.is_source(net.tail(e)) && is_wide(net, rest, widths, width, e) {
            return Some(e);
        }
    }
    None
}

/// The first edge with which a walk of this width leads from `v` to a sink.
fn next_wide(net: &Net, rest: &[u64], widths: &[u64], width: u64, v: u32) -> Option<u32>
    requires vertex { v < net.now.vertices }
    requires one_each { length rest.now ≡ edge_count net.now }
    requires widths { AreWidths net.now (slice_index rest.now) widths.now }
    requires positive { 1 ≤ width }
    ensures { IsFirstEdge net.now (IsWideOutOf net.now (slice_index rest.now) width v) result }
{
    let mut out = net.first_out(v);
    while let Some(e) = out {
        if is_wide(net, rest, widths, width, e) {
            return Some(e);
        }
        out = net.next_out(e);
    }
    None
}

/// The first path of this width by edge list, empty where there is none.
fn first_path(
    alloc: Global,
    net: &Net,
    rest: &[u64],
    widths: &[u64],
    width: u64,
) -> Result<Ids, AllocError>
    requires one_each { length rest.now ≡ edge_count net.now }
    requires widths { AreWidths net.now (slice_index rest.now) widths.now }
    requires positive { 1 ≤ width }
    requires net { IsNet net.now }
    ensures { IfOk result (IsFirstPath net.now (slice_index rest.now) width) }
{
    let mut path = Ids::new(alloc);
    let mut next = first_wide(net, rest, widths, width);
    while let Some(e) = next {
        path.push(e)?;
        next = next_wide(net, rest, widths, width, net.head(e));
    }
    Ok(path)
}

/// The widest path and its width, of the paths as wide the first by edge list.
pub fn widest_path(alloc: Global, net: &Net, rest: &[u64]) -> Result<Option<(Ids, u64)>, AllocError>
    requires { length rest.now ≡ edge_count net.now }
    ensures found { IfOk result (IsWidestFound net.now (slice_index rest.now)) }
    ensures net { IfOk result (λ _. IsNet net.now) }
{
    let widths = widths_to_sinks(alloc, net, rest)?;
    let width = greatest_width(net, rest, &widths);
    if width == 0 {
        return Ok(None);
    }
    let path = first_path(alloc, net, rest, &widths, width)?;
    Ok(Some((path, width)))
}
