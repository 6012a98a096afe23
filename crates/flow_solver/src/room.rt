//! Flows within ranges that are at least given numbers, and room for booked paths.
ghost use Rattle.std.specs.Prelude.{◌≡◌, ◌≤◌, ◌<◌, ◌==◌, ◌&&◌, nat_le, length, IfOk, IsTrue, MatchOption};
ghost use Rattle.std.specs.List.{list_all};
ghost use Rattle.decomposition.specs.Answer.{IsAnswer};
ghost use Rattle.decomposition.specs.Graph.{edge_count};
ghost use Rattle.flow_solver.specs.Asked.{most_rules};
ghost use Rattle.flow_solver.specs.Right.{NothingIsWithin};
ghost use Rattle.flow_solver.specs.Room.{HasRoomFor, HasNoRoomFor, HasNoneAbove, IsFlowAbove, AreRaised, IsPassed, IsFlowIn, ranged};

use dag_net::{Answer, Net, Numbers, Range, Ranges};
use greedy_paths::units_on;
use lower_flow::{FlowOrCut, bounded_flow_near};
use std::alloc::{AllocError, Global};

/// A flow within the ranges that is at least the units of the booked paths on each edge, if there is one.
pub fn flow_with_room(
    alloc: Global,
    net: &Net,
    ranges: &Ranges,
    flow: Numbers,
    booked: &Answer,
) -> Result<Option<Numbers>, AllocError>
    requires one_each { length ranges.now ≡ edge_count net.now }
    requires bounded { IsTrue (list_all (λ r. nat_le r.lo r.hi && nat_le r.hi 1000000000000) ranges.now) }
    requires flow { IsFlowIn net.now ranges.now flow }
    requires answer { IsAnswer net.now booked.now }
    requires units { IsTrue (list_all (λ entry. entry.1 == 1) booked.now) }
    requires few { length booked.now ≤ most_rules }
    ensures { IfOk result (λ found. MatchOption found (HasNoRoomFor net.now ranges.now booked.now) (HasRoomFor net.now ranges.now booked.now)) }
{
    if booked.len() == 0 {
        return Ok(Some(flow));
    }
    let units = units_on(alloc, net, booked)?;
    flow_above(alloc, net, ranges, &units)
}

/// A flow within the ranges that is at least these numbers on each edge, if there is one.
pub fn flow_above(
    alloc: Global,
    net: &Net,
    ranges: &Ranges,
    least: &[u64],
) -> Result<Option<Numbers>, AllocError>
    requires one_each { length ranges.now ≡ edge_count net.now }
    requires bounded { IsTrue (list_all (λ r. nat_le r.lo r.hi && nat_le r.hi 1000000000000) ranges.now) }
    requires numbers { length least.now ≡ edge_count net.now }
    ensures { IfOk result (λ found. MatchOption found (HasNoneAbove net.now ranges.now least.now) (IsFlowAbove net.now ranges.now least.now)) }
{
    flow_above_near(alloc, net, ranges, least, &[])
}

/// The same, where a flow is known that is perhaps not far from one.
pub fn flow_above_near(
    alloc: Global,
    net: &Net,
    ranges: &Ranges,
    least: &[u64],
    near: &[u64],
) -> Result<Option<Numbers>, AllocError>
    requires one_each { length ranges.now ≡ edge_count net.now }
    requires bounded { IsTrue (list_all (λ r. nat_le r.lo r.hi && nat_le r.hi 1000000000000) ranges.now) }
    requires numbers { length least.now ≡ edge_count net.now }
    ensures { IfOk result (λ found. MatchOption found (HasNoneAbove net.now ranges.now least.now) (IsFlowAbove net.now ranges.now least.now)) }
{
    match raised_by(alloc, ranges, least)? {
        Some(raised) => flow_within(alloc, net, raised.as_slice(), near),
        None => Ok(None),
    }
}

/// A flow within ranges, if there is one, from numbers that are perhaps not far from it.
fn flow_within(
    alloc: Global,
    net: &Net,
    ranges: &[Range],
    near: &[u64],
) -> Result<Option<Numbers>, AllocError>
    requires one_each { length ranges.now ≡ edge_count net.now }
    requires bounded { IsTrue (list_all (λ r. nat_le r.lo r.hi && nat_le r.hi 1000000000000) ranges.now) }
    ensures { IfOk result (λ found. MatchOption found (NothingIsWithin (ranged net.now ranges.now)) (IsFlowIn net.now ranges.now)) }
{
    prove!(net.edges() <= 4096);
    match bounded_flow_near(alloc, net, ranges, near)? {
        FlowOrCut::Flow(flow) => Ok(Some(flow)),
        _ => Ok(None),
    }
}

/// The ranges with each lower bound raised to these numbers, or none where the number of an edge passes its upper bound.
fn raised_by(alloc: Global, ranges: &Ranges, least: &[u64]) -> Result<Option<Ranges>, AllocError>
    requires one_each { length least.now ≡ length ranges.now }
    ensures { IfOk result (λ raised. MatchOption raised (IsPassed ranges.now least.now) (AreRaised ranges.now least.now)) }
{
    let mut raised = Ranges::new(alloc);
    for e in 0..ranges.len() {
        let range = ranges.get(e);
        if least[e] > range.hi {
            return Ok(None);
        }
        raised.push(Range {
            lo: range.lo.max(least[e]),
            hi: range.hi,
        })?;
    }
    Ok(Some(raised))
}
