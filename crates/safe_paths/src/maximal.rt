//! The maximal safe runs of a flow, by two pointers along each path of a decomposition.

ghost use Rattle.std.specs.Prelude.{◌≡◌, ◌≤◌, length, slice_index, All, IfOk};
ghost use Rattle.decomposition.specs.Graph.{edge_count};
ghost use Rattle.decomposition.specs.Flow.{Decomposes};
ghost use Rattle.decomposition.specs.SafeRuns.{IsSafeFor, AreMaximal};

use crate::places::search;
use crate::vertex_flows::flows_at;
use crate::writing::in_order;
use dag_net::{Answer, IdLists, Net};
use std::alloc::{AllocError, Global};

/// The maximal safe runs of a flow, each once, rising by edge list, from any decomposition of it.
pub fn maximal_safe(
    alloc: Global,
    net: &Net,
    flow: &[u64],
    answer: &Answer,
) -> Result<IdLists, AllocError>
    requires one_each { length flow.now ≡ edge_count net.now }
    requires small { All (λ w. w ≤ 1000000000000) flow.now }
    requires answer { Decomposes net.now (slice_index flow.now) answer.now }
    ensures { IfOk result (AreMaximal (IsSafeFor net.now (slice_index flow.now))) }
{
    let at = flows_at(alloc, net, flow)?;
    prove!(net.edges() <= 4096);
    let places = search(alloc, net, flow, &at, answer)?;
    in_order(alloc, answer, &places)
}
