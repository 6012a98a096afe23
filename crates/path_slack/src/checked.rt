//! The paths of a report, with their weights and slacks.

ghost use Rattle.std.specs.Prelude.{◌≡◌, ◌↔◌, ◌<◌, ◌^◌, length, IfOk, IsTrue};
ghost use Rattle.decomposition.specs.Graph.{edge_count};
ghost use Rattle.slack_terms.specs.Answers.{cost, weighted};
ghost use Rattle.path_slack.specs.Reported.{IsReported};

use crate::fitting::fits;
use crate::ordered::{are_distinct, are_in_order};
use dag_net::Net;
use slack_terms::Slacked;
use std::alloc::{AllocError, Global};

/// The slacks of all paths together.
fn cost(paths: &Slacked) -> u128
    requires few { length paths.now < 2 ^ 32 }
    ensures { result ≡ cost paths.now }
{
    let mut sum = 0u128;
    for i in 0..paths.len() {
        sum += u128::from(paths.get(i).slack);
    }
    sum
}

/// Whether the paths are those of a report with this upper bound: at most `k`, none twice, that explain the weights and whose slacks together
/// are the bound, by falling weight, then falling slack, then edge list.
///
/// The only error is want of memory. The time is linear in the edges of the net and of the paths, but for a search of each path among the
/// others.
pub fn check_paths(
    alloc: Global,
    net: &Net,
    weights: &[u64],
    k: u32,
    upper: u64,
    paths: &Slacked,
) -> Result<bool, AllocError>
    requires one_each { length weights.now ≡ edge_count net.now }
    ensures { IfOk result (λ right. IsTrue right ↔ IsReported (weighted net.now weights.now) k upper paths.now) }
{
    if paths.len() > k as usize || cost(paths) != u128::from(upper) || !are_in_order(paths) {
        return Ok(false);
    }
    Ok(are_distinct(alloc, paths)? && fits(alloc, net, weights, paths)?)
}
