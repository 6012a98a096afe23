//! Numbers that are perhaps not far from the next flow, from the flow that stands.
//!
//! Nothing rests on them: a search that begins near them ends as right as one from nothing, and sooner.
ghost use Rattle.std.specs.Prelude.{◌≡◌, ◌+◌, ◌<◌, ◌^◌, length, vec_len, slice_index, All, IfOk};
ghost use Rattle.decomposition.specs.Graph.{IsPath, edge_count};

use crate::thin::{left_of, with_path};
use dag_net::{Ids, Net, Numbers, Ranges};
use greedy_paths::widest_path;
use std::alloc::{AllocError, Global};

/// So many paths are taken off at most.
const SPARE_PATHS: u32 = 16;

/// A flow with so much more along a path, less the widest paths that it has over what each edge must have: the greater one of its lower bound and its number.
pub fn carried_along(
    alloc: Global,
    net: &Net,
    ranges: &Ranges,
    least: &[u64],
    flow: &Numbers,
    path: &Ids,
    more: u64,
) -> Result<Vec<u64>, AllocError>
    requires ranges { length ranges.now ≡ edge_count net.now }
    requires least { length least.now ≡ edge_count net.now }
    requires flow { length flow.now ≡ edge_count net.now }
    requires path { IsPath net.now path.now }
    requires small { All (λ e. slice_index flow.now e + more < 2 ^ 64) path.now }
    ensures { IfOk result (λ near. vec_len near ≡ edge_count net.now) }
{
    let asked = asked_of(alloc, ranges, least)?;
    let near = with_path(alloc, net, flow.as_slice(), path.as_slice(), more)?;
    without_spare(alloc, net, &asked, near)
}

/// What each edge must have: the greater one of its lower bound and its number.
fn asked_of(alloc: Global, ranges: &Ranges, least: &[u64]) -> Result<Vec<u64>, AllocError>
    requires { length least.now ≡ length ranges.now }
    ensures { IfOk result (λ asked. vec_len asked ≡ length ranges.now) }
{
    let mut asked = Vec::new(alloc);
    for e in 0..ranges.len() {
        asked.push(ranges.get(e).lo.max(least[e]))?;
    }
    Ok(asked)
}

/// The numbers less the widest paths that they have over what each edge must have.
fn without_spare(
    alloc: Global,
    net: &Net,
    asked: &[u64],
    numbers: Vec<u64>,
) -> Result<Vec<u64>, AllocError>
    requires asked { length asked.now ≡ edge_count net.now }
    requires numbers { vec_len numbers ≡ edge_count net.now }
    ensures { IfOk result (λ near. vec_len near ≡ edge_count net.now) }
{
    let mut near = numbers;
    for _ in 0..SPARE_PATHS {
        let spare = left_of(alloc, &near, asked)?;
        let Some((path, width)) = widest_path(alloc, net, &spare)? else {
            break;
        };
        take_off(&mut near, path.as_slice(), width);
    }
    Ok(near)
}

/// Takes so much off the edges of a path, and no more than they have.
fn take_off(numbers: &mut [u64], path: &[u32], width: u64)
    requires { All (λ e. e < length numbers.old) path.now }
{
    for &e in path {
        numbers[e as usize] = numbers[e as usize].saturating_sub(width);
    }
}
