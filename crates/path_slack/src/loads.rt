//! What paths put on the edges of a net: their weights, and their slacks.

ghost use Rattle.std.specs.Prelude.{◌≡◌, ◌≢◌, ℕ, ◌+◌, ◌<◌, ◌^◌, cond, length, slice_index, All, AllPairs, IfOk};
ghost use Rattle.decomposition.specs.Graph.{edge_count, has_edge};
ghost use Rattle.slack_terms.specs.Answers.{IsSlackAnswer};
ghost use Rattle.path_slack.specs.Loads.{AreLoads};

use dag_net::Net;
use slack_terms::Slacked;
use std::alloc::{AllocError, Global};

/// The weights and the slacks on each edge.
#[derive(Debug, Drop)]
pub struct Loads {
    pub weights: Vec<u128>,
    pub slacks: Vec<u128>,
}

/// Adds an amount on each edge of a path.
fn add_along(sums: &mut [u128], path: &[u32], amount: u64)
    requires inside { All (λ e. e < length sums.old) path.now }
    requires once { AllPairs (λ d e. d ≢ e) path.now }
    requires room { All (λ e. slice_index sums.old e + amount < 2 ^ 128) path.now }
    ensures { (e : ℕ) → slice_index sums.new e ≡ slice_index sums.old e + cond (has_edge path.now e) amount 0 }
{
    for &e in path {
        sums[e as usize] += u128::from(amount);
    }
}

/// What the paths put on each edge.
pub fn loads_of(alloc: Global, net: &Net, paths: &Slacked) -> Result<Loads, AllocError>
    requires answer { IsSlackAnswer net.now paths.now }
    requires few { length paths.now < 2 ^ 32 }
    ensures { IfOk result (AreLoads net.now paths.now) }
{
    let edges = net.edges() as usize;
    let mut weights = vec![in alloc; 0u128; edges]?;
    let mut slacks = vec![in alloc; 0u128; edges]?;
    for i in 0..paths.len() {
        let entry = paths.get(i);
        let path = entry.path.as_slice();
        add_along(&mut weights, path, entry.weight);
        add_along(&mut slacks, path, entry.slack);
    }
    Ok(Loads { weights, slacks })
}
