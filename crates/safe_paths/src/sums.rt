//! The excess of a run, by sums along it: what its edges carry, less the flow out of the vertices between them.

ghost use Rattle.std.specs.Prelude.{◌≡◌, ◌<◌, ◌≤◌, length, slice_index, All};
ghost use Rattle.decomposition.specs.Graph.{edge_count, IsRun};
ghost use Rattle.decomposition.specs.Flow.{flow_out_of};
ghost use Rattle.decomposition.specs.SafeRuns.{excess};
ghost use Rattle.safe_paths.specs.Sums.{carried, passed};

use dag_net::Net;

/// The flow of the edges of a list.
fn carried(flow: &[u64], edges: &[u32]) -> u64
    requires inside { All (λ e. e < length flow.now) edges.now }
    requires small { All (λ w. w ≤ 1000000000000) flow.now }
    requires few { length edges.now ≤ 4096 }
    ensures { result ≡ carried (slice_index flow.now) edges.now }
{
    let mut sum = 0;
    for &e in edges {
        sum += flow[e as usize];
    }
    sum
}

/// The flow out of a vertex.
fn flow_out(net: &Net, flow: &[u64], v: u32) -> u64
    requires vertex { v < net.now.vertices }
    requires one_each { length flow.now ≡ edge_count net.now }
    requires small { All (λ w. w ≤ 1000000000000) flow.now }
    requires few { edge_count net.now ≤ 4096 }
    ensures value { result ≡ flow_out_of net.now (slice_index flow.now) v }
    ensures small { result ≤ 4096000000000000 }
{
    let mut sum = 0;
    let mut out = net.first_out(v);
    while let Some(e) = out {
        sum += flow[e as usize];
        out = net.next_out(e);
    }
    sum
}

/// The flow out of the vertices that the edges of a list leave.
fn passed(net: &Net, flow: &[u64], edges: &[u32]) -> u64
    requires inside { All (λ e. e < edge_count net.now) edges.now }
    requires one_each { length flow.now ≡ edge_count net.now }
    requires small { All (λ w. w ≤ 1000000000000) flow.now }
    requires few { edge_count net.now ≤ 4096 }
    requires short { length edges.now ≤ 4096 }
    ensures { result ≡ passed net.now (slice_index flow.now) edges.now }
{
    let mut sum = 0;
    for &e in edges {
        sum += flow_out(net, flow, net.tail(e));
    }
    sum
}

/// The flow of the run's first edge, less the flow of all edges outside the run that leave its inner vertices.
pub fn excess(net: &Net, flow: &[u64], run: &[u32]) -> i128
    requires one_each { length flow.now ≡ edge_count net.now }
    requires small { All (λ w. w ≤ 1000000000000) flow.now }
    requires run { IsRun net.now run.now }
    ensures { result ≡ excess net.now (slice_index flow.now) run.now }
{
    prove!(run[0] < net.edges());
    i128::from(carried(flow, run)) - i128::from(passed(net, flow, &run[1..]))
}
