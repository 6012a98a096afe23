//! Splits a flow into paths, one for each unit.

ghost use Rattle.std.specs.Prelude.{◌≡◌, ℕ, ◌+◌, ◌<◌, ◌≤◌, length, slice_index, IsTrue, IfOk, OnOk};
ghost use Rattle.std.specs.List.{list_all};
ghost use Rattle.decomposition.specs.Graph.{edge_count, tail, is_source, is_path, IsPath, IsNet};
ghost use Rattle.decomposition.specs.Flow.{IsBalanced};
ghost use Rattle.path_cover.specs.Load.{times, load, IsNextLeft, IsFirstLeft};

use dag_net::{IdLists, Ids, Net};
use std::alloc::{AllocError, Global};

/// The first edge with flow that leaves `v`.
fn next_left(net: &Net, rest: &[u64], v: u32) -> Option<u32>
    requires vertex { v < net.now.vertices }
    requires one_each { length rest.now ≡ edge_count net.now }
    ensures { IsNextLeft net.now (slice_index rest.now) v result }
{
    let mut out = net.first_out(v);
    while let Some(e) = out {
        if rest[e as usize] > 0 {
            return Some(e);
        }
        out = net.next_out(e);
    }
    None
}

/// The first edge with flow that leaves a source.
fn first_left(net: &Net, rest: &[u64]) -> Option<u32>
    requires { length rest.now ≡ edge_count net.now }
    ensures { IsFirstLeft net.now (slice_index rest.now) result }
{
    for e in 0..net.edges() {
        if rest[e as usize] > 0 && net.is_source(net.tail(e)) {
            return Some(e);
        }
    }
    None
}

/// Takes one unit off a path that begins with the edge.
fn take_path(alloc: Global, net: &Net, rest: &mut [u64], first: u32) -> Result<Ids, AllocError>
    requires net { IsNet net.now }
    requires one_each { length rest.old ≡ edge_count net.now }
    requires edge { first < edge_count net.now }
    requires source { IsTrue (is_source net.now (tail net.now first)) }
    requires left { 1 ≤ slice_index rest.old first }
    requires balanced { IsBalanced net.now (slice_index rest.old) }
    ensures path { IfOk result (IsPath net.now) }
    ensures taken { IfOk result (λ path. (e : ℕ) → slice_index rest.new e + times path e ≡ slice_index rest.old e) }
    ensures balanced { OnOk result (IsBalanced net.now (slice_index rest.new)) }
{
    let mut path = Ids::new(alloc);
    let mut next = Some(first);
    while let Some(e) = next {
        rest[e as usize] -= 1;
        path.push(e)?;
        next = next_left(net, rest, net.head(e));
    }
    Ok(path)
}

/// Paths that make up a flow.
pub fn split(alloc: Global, net: &Net, flow: &[u64]) -> Result<IdLists, AllocError>
    requires net { IsNet net.now }
    requires one_each { length flow.now ≡ edge_count net.now }
    requires balanced { IsBalanced net.now (slice_index flow.now) }
    ensures paths { IfOk result (λ cover. IsTrue (list_all (is_path net.now) cover)) }
    ensures load { IfOk result (λ cover. (e : ℕ) → e < edge_count net.now → load cover e ≡ slice_index flow.now e) }
{
    let mut rest = Vec::from_slice(alloc, flow)?;
    let mut cover = IdLists::new(alloc);
    while let Some(first) = first_left(net, &rest) {
        let path = take_path(alloc, net, &mut rest, first)?;
        cover.push(path)?;
    }
    Ok(cover)
}
