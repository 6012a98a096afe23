//! Whether the slacks of paths cover the error of each edge.

ghost use Rattle.std.specs.Prelude.{◌≡◌, ◌↔◌, ◌<◌, ◌^◌, ℕ, length, IfOk, IsTrue};
ghost use Rattle.decomposition.specs.Graph.{edge_count};
ghost use Rattle.slack_terms.specs.Answers.{IsSlackAnswer, CoversError, Fits, weighted};

use crate::loads::loads_of;
use dag_net::Net;
use slack_terms::Slacked;
use std::alloc::{AllocError, Global};

/// Whether each entry is a path of the net with weight or slack.
fn is_slack_answer(net: &Net, paths: &Slacked) -> bool
    ensures { IsTrue result ↔ IsSlackAnswer net.now paths.now }
{
    for i in 0..paths.len() {
        let entry = paths.get(i);
        if (entry.weight == 0 && entry.slack == 0) || !net.is_path(entry.path.as_slice()) {
            return false;
        }
    }
    true
}

/// Whether the weights through each edge are no further from its weight than the slacks through it.
fn covers_errors(
    alloc: Global,
    net: &Net,
    weights: &[u64],
    paths: &Slacked,
) -> Result<bool, AllocError>
    requires one_each { length weights.now ≡ edge_count net.now }
    requires answer { IsSlackAnswer net.now paths.now }
    requires few { length paths.now < 2 ^ 32 }
    ensures { IfOk result (λ covers. IsTrue covers ↔ ((e : ℕ) → e < edge_count net.now → CoversError (weighted net.now weights.now) paths.now e)) }
{
    let loads = loads_of(alloc, net, paths)?;
    for e in 0..weights.len() {
        if loads.weights[e].abs_diff(u128::from(weights[e])) > loads.slacks[e] {
            return Ok(false);
        }
    }
    Ok(true)
}

/// Whether the paths explain the weights: each entry is a path of the net with weight or slack, and on each edge the slacks cover how far
/// the weights are from that of the edge.
pub fn fits(alloc: Global, net: &Net, weights: &[u64], paths: &Slacked) -> Result<bool, AllocError>
    requires one_each { length weights.now ≡ edge_count net.now }
    requires few { length paths.now < 2 ^ 32 }
    ensures { IfOk result (λ fits. IsTrue fits ↔ Fits (weighted net.now weights.now) paths.now) }
{
    if !is_slack_answer(net, paths) {
        return Ok(false);
    }
    covers_errors(alloc, net, weights, paths)
}
