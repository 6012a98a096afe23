//! Another flow within ranges that has room for booked paths, made of few paths.
//!
//! 1. The booked units are settled first: from then on each edge keeps what is settled on it.
//! 2. The widest path of what the flow has over that is taken. If some flow has on it all that the upper bounds leave, this flow goes on and so much is settled
//!    along the path; otherwise the width of the path is. The search for such a flow begins near the flow that stands.
//! 3. This ends when each lower bound is settled, when no path is left, or after so many steps.
//! 4. A flow that is at least what is settled, with as little more as the ranges ask for, is the answer.
ghost use Rattle.std.specs.Prelude.{◌≡◌, ◌↔◌, ◌+◌, ◌≤◌, ◌<◌, ◌^◌, ◌==◌, ◌&&◌, nat_le, length, slice_index, All, IfOk, IsTrue};
ghost use Rattle.std.specs.List.{list_all};
ghost use Rattle.decomposition.specs.Answer.{IsAnswer};
ghost use Rattle.decomposition.specs.Graph.{IsPath, edge_count};
ghost use Rattle.flow_solver.specs.Asked.{most_rules};
ghost use Rattle.flow_solver.specs.Room.{AreReached, AreAtMost, FitsAlong, HasRoomFor, IsAddedAlong, IsLeftOf, IsSettling};

use crate::carried::carried_along;
use crate::room::{flow_above, flow_above_near};
use dag_net::{Answer, Ids, Net, Numbers, Ranges};
use greedy_paths::{add_along, units_on, widest_path};
use std::alloc::{AllocError, Global};

/// A flow within ranges, and what each edge keeps of it.
#[derive(Debug, Drop)]
struct Settling {
    flow: Numbers,
    settled: Vec<u64>,
}

/// So many paths are settled at most for each edge.
const STEPS_FOR_EACH_EDGE: u32 = 2;

/// A flow within the ranges that has room for the booked paths, from one that has.
pub fn thin_flow(
    alloc: Global,
    net: &Net,
    ranges: &Ranges,
    flow: Numbers,
    booked: &Answer,
) -> Result<Numbers, AllocError>
    requires one_each { length ranges.now ≡ edge_count net.now }
    requires bounded { IsTrue (list_all (λ r. nat_le r.lo r.hi && nat_le r.hi 1000000000000) ranges.now) }
    requires answer { IsAnswer net.now booked.now }
    requires units { IsTrue (list_all (λ entry. entry.1 == 1) booked.now) }
    requires few { length booked.now ≤ most_rules }
    requires room { HasRoomFor net.now ranges.now booked.now flow }
    ensures { IfOk result (HasRoomFor net.now ranges.now booked.now) }
{
    let settled = units_on(alloc, net, booked)?;
    let settling = settle_paths(alloc, net, ranges, Settling { flow, settled })?;
    match flow_above(alloc, net, ranges, &settling.settled)? {
        Some(least) => Ok(least),
        None => Ok(settling.flow),
    }
}

/// Settles one path after another.
fn settle_paths(
    alloc: Global,
    net: &Net,
    ranges: &Ranges,
    first: Settling,
) -> Result<Settling, AllocError>
    requires one_each { length ranges.now ≡ edge_count net.now }
    requires bounded { IsTrue (list_all (λ r. nat_le r.lo r.hi && nat_le r.hi 1000000000000) ranges.now) }
    requires settling { IsSettling net.now ranges.now first }
    ensures settling { IfOk result (IsSettling net.now ranges.now) }
    ensures more { IfOk result (λ new. AreAtMost first.settled.items new.settled.items) }
{
    prove!(net.edges() <= 4096);
    let mut settling = first;
    for _ in 0..STEPS_FOR_EACH_EDGE * net.edges() {
        if are_reached(ranges, &settling.settled) {
            break;
        }
        let left = left_of(alloc, settling.flow.as_slice(), &settling.settled)?;
        let Some((path, width)) = widest_path(alloc, net, &left)? else {
            break;
        };
        settling = settle_along(alloc, net, ranges, settling, &path, width)?;
    }
    Ok(settling)
}

/// Whether each lower bound is settled.
fn are_reached(ranges: &Ranges, settled: &[u64]) -> bool
    requires { length settled.now ≡ length ranges.now }
    ensures { IsTrue result ↔ AreReached ranges.now settled.now }
{
    for e in 0..ranges.len() {
        if settled[e] < ranges.get(e).lo {
            return false;
        }
    }
    true
}

/// What a flow has on each edge over what is settled, 0 where it has no more.
pub fn left_of(alloc: Global, flow: &[u64], settled: &[u64]) -> Result<Vec<u64>, AllocError>
    requires { length settled.now ≡ length flow.now }
    ensures { IfOk result (λ left. IsLeftOf (length flow.now) flow.now settled.now left.items) }
{
    let mut left = Vec::new(alloc);
    for e in 0..flow.len() {
        left.push(flow[e].saturating_sub(settled[e]))?;
    }
    Ok(left)
}

/// Settles as much along the path as the upper bounds leave, where some flow has that on it; otherwise its width.
fn settle_along(
    alloc: Global,
    net: &Net,
    ranges: &Ranges,
    settling: Settling,
    path: &Ids,
    width: u64,
) -> Result<Settling, AllocError>
    requires one_each { length ranges.now ≡ edge_count net.now }
    requires bounded { IsTrue (list_all (λ r. nat_le r.lo r.hi && nat_le r.hi 1000000000000) ranges.now) }
    requires settling { IsSettling net.now ranges.now settling }
    requires path { IsPath net.now path.now }
    requires width { All (λ e. slice_index settling.settled.items e + width ≤ slice_index settling.flow e) path.now }
    ensures settling { IfOk result (IsSettling net.now ranges.now) }
    ensures more { IfOk result (λ new. AreAtMost settling.settled.items new.settled.items) }
{
    let Settling { flow, settled } = settling;
    let room = room_along(ranges, &settled, path.as_slice());
    let wide = with_path(alloc, net, &settled, path.as_slice(), room)?;
    let more = room.saturating_sub(width);
    let near = carried_along(alloc, net, ranges, &wide, &flow, path, more)?;
    if let Some(wide_flow) = flow_above_near(alloc, net, ranges, &wide, &near)? {
        return Ok(Settling {
            flow: wide_flow,
            settled: wide,
        });
    }
    let settled = with_path(alloc, net, &settled, path.as_slice(), width)?;
    Ok(Settling { flow, settled })
}

/// The most that may be settled on each edge of a path.
fn room_along(ranges: &Ranges, settled: &[u64], path: &[u32]) -> u64
    requires one_each { length settled.now ≡ length ranges.now }
    requires inside { All (λ e. e < length ranges.now) path.now }
    requires fits { FitsAlong ranges.now settled.now 0 path.now }
    ensures { FitsAlong ranges.now settled.now result path.now }
{
    let mut room = u64::MAX;
    for &e in path {
        let here = ranges.get(e as usize).hi - settled[e as usize];
        room = room.min(here);
    }
    room
}

/// The same numbers, and more along a path.
pub fn with_path(
    alloc: Global,
    net: &Net,
    settled: &[u64],
    path: &[u32],
    more: u64,
) -> Result<Vec<u64>, AllocError>
    requires one_each { length settled.now ≡ edge_count net.now }
    requires path { IsPath net.now path.now }
    requires small { All (λ e. slice_index settled.now e + more < 2 ^ 64) path.now }
    ensures { IfOk result (λ sums. IsAddedAlong settled.now path.now more sums.items) }
{
    prove!(net.edges() <= 4096);
    let mut sums = Vec::from_slice(alloc, settled)?;
    add_along(&mut sums, path, more);
    Ok(sums)
}
