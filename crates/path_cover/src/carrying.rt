//! A first flow that carries every needed edge: a path through each that no earlier path has.

ghost use Rattle.std.specs.Prelude.{◌≡◌, ℕ, ◌+◌, ◌<◌, ◌≤◌, ◌^◌, length, slice_index, IfOk};
ghost use Rattle.decomposition.specs.Graph.{edge_count, tail, head, IsNet};
ghost use Rattle.decomposition.specs.Flow.{IsBalanced};
ghost use Rattle.path_cover.specs.Carrying.{least_flow, IsCarrying, most_at_first, IsMore, IsSentOn, IsBroughtIn, IsPathMore, MaySend, MayCarry};
ghost use Rattle.dag_net.specs.Entering.{EnterFrom};
ghost use Rattle.dag_net.specs.Marks.{is_set};

use crate::ways::{edge_back, edge_onward};
use dag_net::{Entering, Net};
use std::alloc::{AllocError, Global};

/// Sends one unit more from `v` on to a sink.
fn send_on(net: &Net, needed: &[bool], flow: &mut [u64], v: u32)
    requires vertex { v < net.now.vertices }
    requires room { MaySend net.now needed.now flow.old }
    ensures more { IsMore (slice_index flow.old) (slice_index flow.new) net.now.vertices }
    ensures sent { IsSentOn net.now (slice_index flow.old) (slice_index flow.new) v }
{
    let mut at = v;
    while let Some(e) = edge_onward(net, needed, flow, at) {
        flow[e as usize] += 1;
        at = net.head(e);
    }
}

/// Brings one unit more from a source to `v`.
fn bring_in(net: &Net, entering: &Entering, needed: &[bool], flow: &mut [u64], v: u32)
    requires vertex { v < net.now.vertices }
    requires entering { EnterFrom net.now 0 entering.now.first.items entering.now.next.items }
    requires room { MaySend net.now needed.now flow.old }
    ensures more { IsMore (slice_index flow.old) (slice_index flow.new) net.now.vertices }
    ensures brought { IsBroughtIn net.now (slice_index flow.old) (slice_index flow.new) v }
{
    let mut at = v;
    while let Some(e) = edge_back(net, entering, needed, flow, at) {
        flow[e as usize] += 1;
        at = net.tail(e);
    }
}

/// Sends one unit along a path through the edge. No path has more than 16,384 other edges: one for each vertex, on both sides.
fn send_through(net: &Net, entering: &Entering, needed: &[bool], flow: &mut [u64], e: u32)
    requires edge { e < edge_count net.now }
    requires entering { EnterFrom net.now 0 entering.now.first.items entering.now.next.items }
    requires room { MayCarry net.now needed.now flow.old }
    ensures path { IsPathMore net.now (slice_index flow.old) (slice_index flow.new) }
    ensures carries { 1 ≤ slice_index flow.new e }
{
    flow[e as usize] += 1;
    send_on(net, needed, flow, net.head(e));
    bring_in(net, entering, needed, flow, net.tail(e));
}

/// Sends a unit through the edge where it is needed and has no flow yet.
fn carry(net: &Net, entering: &Entering, needed: &[bool], flow: &mut [u64], e: u32)
    requires edge { e < edge_count net.now }
    requires entering { EnterFrom net.now 0 entering.now.first.items entering.now.next.items }
    requires room { MayCarry net.now needed.now flow.old }
    ensures path { IsPathMore net.now (slice_index flow.old) (slice_index flow.new) }
    ensures carries { least_flow (is_set needed.now) e ≤ slice_index flow.new e }
{
    if needed[e as usize] && flow[e as usize] == 0 {
        send_through(net, entering, needed, flow, e);
    }
}

/// A flow that carries the needed edges.
pub fn first_flow(
    alloc: Global,
    net: &Net,
    entering: &Entering,
    needed: &[bool],
) -> Result<Vec<u64>, AllocError>
    requires net { IsNet net.now }
    requires entering { EnterFrom net.now 0 entering.now.first.items entering.now.next.items }
    requires needed { length needed.now ≡ edge_count net.now }
    requires vertices { net.now.vertices ≤ 8192 }
    ensures one_each { IfOk result (λ flow. length flow.items ≡ edge_count net.now) }
    ensures carrying { IfOk result (λ flow. IsCarrying net.now (is_set needed.now) (slice_index flow.items)) }
    ensures small { IfOk result (λ flow. (e : ℕ) → slice_index flow.items e ≤ most_at_first) }
{
    let mut flow = vec![in alloc; 0; net.edges() as usize]?;
    for e in 0..net.edges() {
        carry(net, entering, needed, &mut flow, e);
    }
    Ok(flow)
}
