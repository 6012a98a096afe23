//! A flow within ranges, by augmenting along shortest ways, as Edmonds and Karp do.
//!
//! 1. Every edge begins with the number in its range that is nearest to a flow that is known, and its flow stays within the range. The flow that is known may be any
//!    numbers: the nearer they are to a flow within the ranges, the less there is to send.
//! 2. From all inner vertices that receive too much at once, a breadth first search over edges with room goes to the nearest vertex that sends too much, or that is a
//!    source or a sink and so may do either. As much as can be is sent there, and the search is made anew.
//! 3. Where a search finds no such vertex, those that it has reached are a cut. Otherwise no vertex receives too much any more.
//! 4. The same against the edges for the vertices that send too much.

ghost use Rattle.std.specs.Prelude.{◌≡◌, ◌&&◌, nat_le, length, slice_index, IsTrue, IfOk};
ghost use Rattle.std.specs.List.{list_all};
ghost use Rattle.decomposition.specs.Graph.{edge_count};
ghost use Rattle.lower_flow.specs.Brought.{AreBrought};
ghost use Rattle.lower_flow.specs.Found.{IsFlowOrCut};
ghost use Rattle.lower_flow.specs.Limits.{most_units, most_wide_units};

use crate::clearing::clear;
use crate::found::FlowOrCut;
use dag_net::{Entering, Net, Numbers, Range};
use decomposition::Side;
use std::alloc::{AllocError, Global};

/// The number at a place, 0 past the end.
fn units_at(near: &[u64], e: usize) -> u64
    ensures { result ≡ slice_index near.now e }
{
    near.get(e).copied().unwrap_or(0)
}

/// For each range the number in it that is nearest to the number at its place.
fn brought_within(alloc: Global, ranges: &[Range], near: &[u64]) -> Result<Vec<u64>, AllocError>
    ensures { IfOk result (λ flow. AreBrought ranges.now near.now flow.items) }
{
    let mut flow = Vec::new(alloc);
    for (e, range) in ranges.iter().enumerate() {
        flow.push(units_at(near, e).max(range.lo).min(range.hi))?;
    }
    Ok(flow)
}

/// The same numbers.
fn numbers(alloc: Global, flow: &[u64]) -> Result<Numbers, AllocError>
    ensures { IfOk result (λ numbers. numbers ≡ flow.now) }
{
    let mut numbers = Numbers::new(alloc);
    for units in flow {
        numbers.push(*units)?;
    }
    Ok(numbers)
}

/// A flow within the ranges, or a cut that shows that there is none.
///
/// Wanted is a number for each edge, within its range, so that as much enters each inner vertex as leaves it; sources and sinks are free. There are three answers:
///
/// - `Flow`: such numbers, one for each edge;
/// - `InCut`: vertices, rising, none of them a sink, that must receive more than they can send on: the lower bounds of the edges that enter the set sum to more than the
///   upper bounds of the edges that leave it;
/// - `OutCut`: vertices, rising, none of them a source, that must send more than they can receive: the lower bounds of the edges that leave the set sum to more than the
///   upper bounds of the edges that enter it.
///
/// The only error is want of memory.
pub fn bounded_flow(alloc: Global, net: &Net, ranges: &[Range]) -> Result<FlowOrCut, AllocError>
    requires one_each { length ranges.now ≡ edge_count net.now }
    requires bounded { IsTrue (list_all (λ r. nat_le r.lo r.hi && nat_le r.hi most_units) ranges.now) }
    ensures { IfOk result (IsFlowOrCut net.now ranges.now) }
{
    bounded_flow_near(alloc, net, ranges, &[])
}

/// The same, where a flow is known that is perhaps not far from one within the ranges.
///
/// Any numbers may be known, and as many as there are: the answer is as right, and comes sooner the fewer of them have to change.
pub fn bounded_flow_near(
    alloc: Global,
    net: &Net,
    ranges: &[Range],
    near: &[u64],
) -> Result<FlowOrCut, AllocError>
    requires one_each { length ranges.now ≡ edge_count net.now }
    requires bounded { IsTrue (list_all (λ r. nat_le r.lo r.hi && nat_le r.hi most_units) ranges.now) }
    ensures { IfOk result (IsFlowOrCut net.now ranges.now) }
{
    wide_flow_near(alloc, net, ranges, near)
}

/// The same as [`bounded_flow`], for ranges with upper bounds that are 4,096 times as great.
pub fn wide_flow(alloc: Global, net: &Net, ranges: &[Range]) -> Result<FlowOrCut, AllocError>
    requires one_each { length ranges.now ≡ edge_count net.now }
    requires bounded { IsTrue (list_all (λ r. nat_le r.lo r.hi && nat_le r.hi most_wide_units) ranges.now) }
    ensures { IfOk result (IsFlowOrCut net.now ranges.now) }
{
    wide_flow_near(alloc, net, ranges, &[])
}

/// The same as [`bounded_flow_near`], for ranges with upper bounds that are 4,096 times as great.
pub fn wide_flow_near(
    alloc: Global,
    net: &Net,
    ranges: &[Range],
    near: &[u64],
) -> Result<FlowOrCut, AllocError>
    requires one_each { length ranges.now ≡ edge_count net.now }
    requires bounded { IsTrue (list_all (λ r. nat_le r.lo r.hi && nat_le r.hi most_wide_units) ranges.now) }
    ensures { IfOk result (IsFlowOrCut net.now ranges.now) }
{
    let entering = Entering::of(alloc, net)?;
    let mut flow = brought_within(alloc, ranges, near)?;
    if let Some(cut) = clear(alloc, net, &entering, ranges, &mut flow, Side::Entering)? {
        return Ok(FlowOrCut::InCut(cut));
    }
    if let Some(cut) = clear(alloc, net, &entering, ranges, &mut flow, Side::Leaving)? {
        return Ok(FlowOrCut::OutCut(cut));
    }
    Ok(FlowOrCut::Flow(numbers(alloc, &flow)?))
}
