//! What the paths of an answer put on an edge.

ghost use Rattle.std.specs.Prelude.{◌≡◌, ◌^◌, ◌<◌, length};
ghost use Rattle.decomposition.specs.Graph.{IsNet, IsRun, edge_count, has_edge};
ghost use Rattle.decomposition.specs.Answer.{IsAnswer, weight_on};

use dag_net::{Answer, Net};

/// Whether a run has the edge, by halving: the head of each edge before it reaches its tail, and no other head does.
fn has_edge(net: &Net, run: &[u32], e: u32) -> bool
    requires net { IsNet net.now }
    requires run { IsRun net.now run.now }
    requires edge { e < edge_count net.now }
    ensures { result ≡ has_edge run.now e }
{
    let tail = net.tail(e);
    let mut low = 0;
    let mut high = run.len();
    while low < high {
        let middle = low + (high - low) / 2;
        if run[middle] == e {
            return true;
        }
        if net.reaches(net.head(run[middle]), tail) {
            low = middle + 1;
        } else {
            high = middle;
        }
    }
    false
}

/// The total weight of the paths through an edge.
pub fn weight_through(net: &Net, answer: &Answer, e: u32) -> u128
    requires net { IsNet net.now }
    requires edge { e < edge_count net.now }
    requires answer { IsAnswer net.now answer.now }
    requires few { length answer.now < 2 ^ 32 }
    ensures weight { result ≡ weight_on answer.now e }
    ensures small { result < 2 ^ 96 }
{
    let mut sum = 0u128;
    for i in 0..answer.len() {
        if has_edge(net, answer.path(i).as_slice(), e) {
            sum += u128::from(answer.weight(i));
        }
    }
    sum
}
