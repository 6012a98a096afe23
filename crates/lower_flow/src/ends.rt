//! The ends of edges as seen from one side, and how far the flow on an edge may change.

ghost use Rattle.std.specs.Prelude.{◌≡◌, ◌-◌, ◌<◌, ◌≤◌, ◌⊎◌, length, slice_index};
ghost use Rattle.decomposition.specs.Graph.{edge_count, tail, head};
ghost use Rattle.decomposition.specs.Instance.{range_at};
ghost use Rattle.lower_flow.specs.Residual.{near, far, IsRanged, residual};
ghost use Rattle.lower_flow.specs.Search.{IsStepOver};

use dag_net::{Net, Range};
use decomposition::Side;

/// The end from which a surplus goes over the edge where the edge takes more flow: the tail where too much enters, the head where too much leaves.
pub fn near(net: &Net, side: Side, e: u32) -> u32
    requires { e < edge_count net.now }
    ensures end { result ≡ near net.now side e }
    ensures vertex { result < net.now.vertices }
{
    match side {
        Side::Entering => net.tail(e),
        Side::Leaving => net.head(e),
    }
}

/// The other end.
pub fn far(net: &Net, side: Side, e: u32) -> u32
    requires { e < edge_count net.now }
    ensures end { result ≡ far net.now side e }
    ensures vertex { result < net.now.vertices }
{
    match side {
        Side::Entering => net.head(e),
        Side::Leaving => net.tail(e),
    }
}

/// How much more flow the edge may have.
pub fn room_above(ranges: &[Range], flow: &[u64], e: u32) -> u64
    requires in_ranges { e < length ranges.now }
    requires in_flow { e < length flow.now }
    requires high { slice_index flow.now e ≤ (range_at ranges.now e).hi }
    ensures { result ≡ (range_at ranges.now e).hi - slice_index flow.now e }
{
    ranges[e as usize].hi - flow[e as usize]
}

/// How much less flow the edge may have.
pub fn room_below(ranges: &[Range], flow: &[u64], e: u32) -> u64
    requires in_ranges { e < length ranges.now }
    requires in_flow { e < length flow.now }
    requires low { (range_at ranges.now e).lo ≤ slice_index flow.now e }
    ensures { result ≡ slice_index flow.now e - (range_at ranges.now e).lo }
{
    flow[e as usize] - ranges[e as usize].lo
}

/// Where a surplus gets over an edge, and how much of it.
#[derive(Clone, Copy)]
pub struct Step {
    pub to: u32,
    pub room: u64,
}

/// The step over the edge from one of its ends: onward with more flow on it, or back with less.
pub fn step_over(net: &Net, ranges: &[Range], flow: &[u64], side: Side, from: u32, e: u32) -> Step
    requires edge { e < edge_count net.now }
    requires ranged { IsRanged net.now ranges.now flow.now }
    requires end { (tail net.now e ≡ from) ⊎ (head net.now e ≡ from) }
    ensures step { IsStepOver (residual net.now ranges.now side (slice_index flow.now)) e from result.to result.room }
    ensures vertex { result.to < net.now.vertices }
{
    if near(net, side, e) == from {
        return Step {
            to: far(net, side, e),
            room: room_above(ranges, flow, e),
        };
    }
    Step {
        to: near(net, side, e),
        room: room_below(ranges, flow, e),
    }
}
