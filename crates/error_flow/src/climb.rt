//! Levels that climb until some flow changes the weights by just as much as they say.
//!
//! 1. The levels give each edge a range in which its flow costs no more than its share of the bound.
//! 2. A flow within these ranges is nearest.
//! 3. Where there is none, a cut shows it. A level that is changed by 1 at the inner vertices of the cut makes the bound greater.
//! 4. The bound is at most the sum of all weights, so this ends.

ghost use Rattle.std.specs.Prelude.{◌≡◌, ◌<◌, ◌≤◌, ◌^◌, ℕ, ℤ, pos, negsuc, ◌≤ℤ◌, ◌&&◌, length, slice_index, vec_len, All, IfOk, IfNone, IfSome, OnOk};
ghost use Rattle.decomposition.specs.Graph.{edge_count, is_inner, IsNet};
ghost use Rattle.decomposition.specs.Certificates.{has_vertex};
ghost use Rattle.dag_net.specs.Marks.{is_set};
ghost use Rattle.lower_flow.specs.Limits.{most_wide_units};
ghost use Rattle.error_flow.specs.Limits.{most_edges, most_weight};
ghost use Rattle.error_flow.specs.Nearest.{IsNearest};
ghost use Rattle.error_flow.specs.Certificate.{level_at, AreAllowed, ProvesNearest};
ghost use Rattle.error_flow.specs.Tight.{total_of, IsTight, AreTight, IsTightFlow};
ghost use Rattle.error_flow.specs.Climb.{IsShifted, AreMarksOf, Climbs};

use crate::check::rise;
use dag_net::{Ids, Net, Numbers, Range};
use lower_flow::{FlowOrCut, wide_flow};
use std::alloc::{AllocError, Global};

/// The sum of all weights.
pub fn total(net: &Net, weights: &[u64]) -> u64
    requires one_each { length weights.now ≡ edge_count net.now }
    requires bounded { All (λ weight. weight ≤ most_weight) weights.now }
    ensures value { result ≡ total_of net.now (slice_index weights.now) }
    ensures few { result ≤ most_wide_units }
{
    let mut sum = 0;
    for e in 0..net.edges() {
        sum += weights[e as usize];
    }
    sum
}

/// The range in which a flow costs no more than the share of the edge.
pub fn tight_range(up: i64, weight: u64, total: u64) -> Range
    ensures { IsTight total up weight result }
{
    let lo = if up > 0 { 0 } else { weight };
    let hi = match up {
        ..0 => total,
        0 | 1 => weight,
        _ => 0,
    };
    Range { lo, hi }
}

/// The ranges of all edges.
fn tight_ranges(
    alloc: Global,
    net: &Net,
    weights: &[u64],
    levels: &[i64],
    total: u64,
) -> Result<Vec<Range>, AllocError>
    requires one_weight_each { length weights.now ≡ edge_count net.now }
    requires one_level_each { length levels.now ≡ net.now.vertices }
    requires allowed { AreAllowed net.now (level_at levels.now) }
    requires all { total ≡ total_of net.now (slice_index weights.now) }
    ensures tight { IfOk result (λ ranges. AreTight net.now (slice_index weights.now) (level_at levels.now) ranges.items) }
    ensures net { IsNet net.now }
    ensures few { edge_count net.now ≤ most_edges }
{
    let mut ranges = Vec::new(alloc);
    for e in 0..net.edges() {
        let up = rise(net, levels, e);
        ranges.push(tight_range(up, weights[e as usize], total))?;
    }
    Ok(ranges)
}

/// Marks the vertices.
fn marks_of(alloc: Global, net: &Net, vertices: &[u32]) -> Result<Vec<bool>, AllocError>
    requires { All (λ v. v < net.now.vertices) vertices.now }
    ensures { IfOk result (λ marks. AreMarksOf net.now.vertices vertices.now marks.items) }
{
    let mut marks = vec![in alloc; false; net.vertices() as usize]?;
    for v in vertices {
        marks[*v as usize] = true;
    }
    Ok(marks)
}

/// Whether the vertex is marked and inner.
fn is_moved(net: &Net, marks: &[bool], v: u32) -> bool
    requires vertex { v < net.now.vertices }
    requires one_mark_each { length marks.now ≡ net.now.vertices }
    ensures { result ≡ (is_set marks.now v && is_inner net.now v) }
{
    marks[v as usize] && !net.is_source(v) && !net.is_sink(v)
}

/// Changes the levels of the inner vertices that are marked.
fn shift(net: &Net, levels: &mut [i64], marks: &[bool], by: i64)
    requires one_level_each { length levels.old ≡ net.now.vertices }
    requires one_mark_each { length marks.now ≡ net.now.vertices }
    requires allowed { AreAllowed net.now (level_at levels.old) }
    requires few { edge_count net.now ≤ most_edges }
    requires low { negsuc 0 ≤ℤ by }
    requires high { by ≤ℤ pos 1 }
    ensures { IsShifted net.now (is_set marks.now) by (level_at levels.old) (level_at levels.new) }
{
    for v in 0..net.vertices() {
        if is_moved(net, marks, v) {
            levels[v as usize] += by;
        }
    }
}

/// Changes the levels of the inner vertices of a list.
fn shift_all(
    alloc: Global,
    net: &Net,
    levels: &mut [i64],
    vertices: &Ids,
    by: i64,
) -> Result<(), AllocError>
    requires one_level_each { length levels.old ≡ net.now.vertices }
    requires inside { All (λ v. v < net.now.vertices) vertices.now }
    requires allowed { AreAllowed net.now (level_at levels.old) }
    requires few { edge_count net.now ≤ most_edges }
    requires low { negsuc 0 ≤ℤ by }
    requires high { by ≤ℤ pos 1 }
    ensures { OnOk result (IsShifted net.now (has_vertex vertices.now) by (level_at levels.old) (level_at levels.new)) }
{
    let marks = marks_of(alloc, net, vertices.as_slice())?;
    shift(net, levels, &marks, by);
    Ok(())
}

/// A flow that changes the weights by just the bound of the levels; where there is none, the levels climb.
pub fn step(
    alloc: Global,
    net: &Net,
    weights: &[u64],
    levels: &mut [i64],
) -> Result<Option<Numbers>, AllocError>
    requires one_weight_each { length weights.now ≡ edge_count net.now }
    requires bounded { All (λ weight. weight ≤ most_weight) weights.now }
    requires one_level_each { length levels.old ≡ net.now.vertices }
    requires allowed { AreAllowed net.now (level_at levels.old) }
    ensures found { IfOk result (λ found. IfSome found (IsTightFlow net.now (slice_index weights.now) (level_at levels.old))) }
    ensures kept { IfOk result (λ found. IfSome found (λ _. levels.new ≡ levels.old)) }
    ensures net { IfOk result (λ _. IsNet net.now) }
    ensures few { IfOk result (λ _. edge_count net.now ≤ most_edges) }
    ensures total { IfOk result (λ _. total_of net.now (slice_index weights.now) ≤ most_wide_units) }
    ensures climbs { IfOk result (λ found. IfNone found (Climbs net.now (slice_index weights.now) (level_at levels.old) (level_at levels.new))) }
{
    let ranges = tight_ranges(alloc, net, weights, levels, total(net, weights))?;
    match wide_flow(alloc, net, &ranges)? {
        FlowOrCut::Flow(flow) => Ok(Some(flow)),
        FlowOrCut::InCut(cut) => {
            shift_all(alloc, net, levels, &cut, 1)?;
            Ok(None)
        }
        FlowOrCut::OutCut(cut) => {
            shift_all(alloc, net, levels, &cut, -1)?;
            Ok(None)
        }
    }
}
