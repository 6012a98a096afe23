//! The balanced flow nearest to weights.

ghost use Rattle.std.specs.Prelude.{◌≡◌, ◌<◌, ◌≤◌, ℕ, length, slice_index, vec_len, All, IfOk, IsTrue, ◌↔◌};
ghost use Rattle.decomposition.specs.Graph.{edge_count};
ghost use Rattle.error_flow.specs.Limits.{most_weight};
ghost use Rattle.error_flow.specs.Nearest.{IsNearest};
ghost use Rattle.error_flow.specs.Certificate.{level_at, AreAllowed, ProvesNearest};
ghost use Rattle.error_flow.specs.Tight.{total_of};

use crate::check::{change, check_nearest};
use crate::climb::{step, total};
use crate::drafting::first_try;
use crate::found::Nearest;
use crate::levels::Levels;
use dag_net::Net;
use std::alloc::{AllocError, Global};

/// A nearest flow, by levels that are allowed.
fn climb(alloc: Global, net: &Net, weights: &[u64], levels: Vec<i64>) -> Result<Nearest, AllocError>
    requires one_weight_each { length weights.now ≡ edge_count net.now }
    requires bounded { All (λ weight. weight ≤ most_weight) weights.now }
    requires one_level_each { vec_len levels ≡ net.now.vertices }
    requires allowed { AreAllowed net.now (level_at levels.items) }
    ensures proof { IfOk result (λ r. ProvesNearest net.now weights.now r.flow r.levels r.change) }
    ensures most { IfOk result (λ r. All (λ units. units ≤ total_of net.now (slice_index weights.now)) r.flow) }
    ensures nearest { IfOk result (λ r. IsNearest net.now (slice_index weights.now) (slice_index r.flow) r.change) }
{
    let mut levels = levels;
    loop {
        if let Some(flow) = step(alloc, net, weights, &mut levels)? {
            let change = change(net, weights, flow.as_slice());
            return Ok(Nearest {
                flow,
                levels: Levels::of(levels),
                change,
            });
        }
    }
}

/// Whether no number is greater than this.
fn are_at_most(flow: &[u64], most: u64) -> bool
    ensures { IsTrue result ↔ All (λ units. units ≤ most) flow.now }
{
    flow.iter().all(|units| *units <= most)
}

/// Whether what was found is a nearest flow, with the levels that prove it.
fn is_answer(net: &Net, weights: &[u64], found: &Nearest) -> bool
    requires one_each { length weights.now ≡ edge_count net.now }
    requires bounded { All (λ weight. weight ≤ most_weight) weights.now }
    ensures proof { IsTrue result → ProvesNearest net.now weights.now found.now.flow found.now.levels found.now.change }
    ensures most { IsTrue result → All (λ units. units ≤ total_of net.now (slice_index weights.now)) found.now.flow }
    ensures nearest { IsTrue result → IsNearest net.now (slice_index weights.now) (slice_index found.now.flow) found.now.change }
{
    let most = total(net, weights);
    let flow = found.flow.as_slice();
    check_nearest(net, weights, flow, found.levels.as_slice(), found.change)
        && are_at_most(flow, most)
}

/// The balanced flow nearest to the weights, with levels that prove that none is nearer.
///
/// The only error is want of memory.
pub fn nearest(alloc: Global, net: &Net, weights: &[u64]) -> Result<Nearest, AllocError>
    requires one_each { length weights.now ≡ edge_count net.now }
    requires bounded { All (λ weight. weight ≤ most_weight) weights.now }
    ensures proof { IfOk result (λ r. ProvesNearest net.now weights.now r.flow r.levels r.change) }
    ensures most { IfOk result (λ r. All (λ units. units ≤ total_of net.now (slice_index weights.now)) r.flow) }
    ensures nearest { IfOk result (λ r. IsNearest net.now (slice_index weights.now) (slice_index r.flow) r.change) }
{
    let found = first_try(alloc, net, weights)?;
    if is_answer(net, weights, &found) {
        return Ok(found);
    }
    let levels = vec![in alloc; 0; net.vertices() as usize]?;
    climb(alloc, net, weights, levels)
}
