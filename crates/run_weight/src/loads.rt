//! The weight that an answer puts on a run, and the least that the decompositions of a flow put on it.

ghost use Rattle.std.specs.Prelude.{◌≡◌, ◌↔◌, ◌^◌, ◌<◌, ◌≤◌, length, slice_index, All};
ghost use Rattle.decomposition.specs.Graph.{edge_count, IsRun};
ghost use Rattle.decomposition.specs.Flow.{IsBalanced};
ghost use Rattle.decomposition.specs.SafeRuns.{IsSafeFor, excess};
ghost use Rattle.run_weight.specs.Loads.{load, IsLeastLoad, at_least_0};

use dag_net::{Answer, Net};
use safe_paths::excess;
use subpath_rules::stands_in;

/// The weight of the entries whose path contains the run.
pub fn load(answer: &Answer, run: &[u32]) -> u128
    requires few { length answer.now < 2 ^ 32 }
    ensures load { result ≡ load answer.now run.now }
    ensures small { result < 2 ^ 96 }
{
    let mut sum = 0u128;
    for i in 0..answer.len() {
        if stands_in(run, answer.path(i).as_slice()) {
            sum += u128::from(answer.weight(i));
        }
    }
    sum
}

/// The least load of a run over all decompositions of the flow.
pub fn least_load(net: &Net, flow: &[u64], run: &[u32]) -> u64
    requires one_each { length flow.now ≡ edge_count net.now }
    requires small { All (λ w. w ≤ 1000000000000) flow.now }
    requires balanced { IsBalanced net.now (slice_index flow.now) }
    requires run { IsRun net.now run.now }
    ensures least { IsLeastLoad net.now (slice_index flow.now) run.now result }
    ensures excess { result ≡ at_least_0 (excess net.now (slice_index flow.now) run.now) }
    ensures safe { 0 < result ↔ IsSafeFor net.now (slice_index flow.now) run.now }
{
    prove!(net.edges() <= 4096);
    excess(net, flow, run).max(0) as u64
}
