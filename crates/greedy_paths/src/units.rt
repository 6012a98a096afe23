//! The booked units on each edge, and what they leave of a flow.

ghost use Rattle.std.specs.Prelude.{◌≡◌, ◌≢◌, ℕ, ◌+◌, ◌<◌, ◌≤◌, ◌^◌, ◌==◌, cond, length, slice_index, All, AllPairs, IfOk, IfErr, IsTrue};
ghost use Rattle.std.specs.List.{list_all};
ghost use Rattle.decomposition.specs.Graph.{edge_count, has_edge};
ghost use Rattle.decomposition.specs.Answer.{IsAnswer};
ghost use Rattle.decomposition.specs.Flow.{IsBalanced};
ghost use Rattle.greedy_paths.specs.Units.{AreUnits, IsRest};
ghost use Rattle.greedy_paths.specs.Built.{IsRefusalOver};

use crate::greedy::GreedyFault;
use dag_net::{Answer, Net};
use std::alloc::{AllocError, Global};

/// Adds a weight on each edge of a path.
pub fn add_along(sums: &mut [u64], path: &[u32], weight: u64)
    requires inside { All (λ e. e < length sums.old) path.now }
    requires once { AllPairs (λ d e. d ≢ e) path.now }
    requires room { All (λ e. slice_index sums.old e + weight < 2 ^ 64) path.now }
    ensures { (e : ℕ) → slice_index sums.new e ≡ slice_index sums.old e + cond (has_edge path.now e) weight 0 }
{
    for &e in path {
        sums[e as usize] += weight;
    }
}

/// The booked units on each edge.
pub fn units_on(alloc: Global, net: &Net, booked: &Answer) -> Result<Vec<u64>, AllocError>
    requires answer { IsAnswer net.now booked.now }
    requires units { IsTrue (list_all (λ entry. entry.1 == 1) booked.now) }
    requires few { length booked.now < 2 ^ 32 }
    ensures { IfOk result (λ units. AreUnits net.now booked.now units.items) }
{
    let mut units = vec![in alloc; 0; net.edges() as usize]?;
    for i in 0..booked.len() {
        add_along(&mut units, booked.path(i).as_slice(), 1);
    }
    Ok(units)
}

/// What the booked units leave of a balanced flow. An unbalanced vertex is refused first, then an edge with more
/// units than flow.
pub fn rest_of(
    alloc: Global,
    net: &Net,
    flow: &[u64],
    booked: &Answer,
) -> Result<Vec<u64>, GreedyFault>
    requires one_each { length flow.now ≡ edge_count net.now }
    requires small { All (λ w. w ≤ 1000000000000) flow.now }
    requires answer { IsAnswer net.now booked.now }
    requires units { IsTrue (list_all (λ entry. entry.1 == 1) booked.now) }
    requires few { length booked.now < 2 ^ 32 }
    ensures balanced { IfOk result (λ _. IsBalanced net.now (slice_index flow.now)) }
    ensures rest { IfOk result (λ rest. IsRest net.now (slice_index flow.now) booked.now rest.items) }
    ensures refusal { IfErr result (IsRefusalOver net.now (slice_index flow.now) booked.now) }
{
    if let Some(vertex) = net.first_unbalanced(alloc, flow)? {
        return Err(GreedyFault::Unbalanced { vertex });
    }
    let mut rest = units_on(alloc, net, booked)?;
    for e in 0..net.edges() {
        let most = flow[e as usize];
        let units = rest[e as usize];
        if most < units {
            return Err(GreedyFault::Overbooked {
                edge: e,
                booked: units,
                flow: most,
            });
        }
        rest[e as usize] = most - units;
    }
    Ok(rest)
}
