//! What flow has each vertex as an end, and so which vertices have too much and which take up more.

ghost use Rattle.std.specs.Prelude.{◌≡◌, ◌-◌, ◌<◌, ◌≤◌, ℕ, if◌then◌else◌, length, vec_len, slice_index, IfOk};
ghost use Rattle.decomposition.specs.Graph.{edge_count, is_inner};
ghost use Rattle.lower_flow.specs.Limits.{most_wide_units};
ghost use Rattle.lower_flow.specs.Residual.{near, far, AreSumsAt};

use crate::ends::{far, near};
use dag_net::Net;
use decomposition::Side;
use std::alloc::{AllocError, Global};

/// For each vertex, the flow of the edges that have it as their far end, and of those that have it as their near end.
#[derive(Drop)]
pub struct Sums {
    pub far: Vec<u64>,
    pub near: Vec<u64>,
}

/// Whether edges enter the vertex and edges leave it.
fn is_inner(net: &Net, v: u32) -> bool
    requires { v < net.now.vertices }
    ensures { result ≡ is_inner net.now v }
{
    !net.is_source(v) && !net.is_sink(v)
}

/// Sums up the flow at the ends of each edge.
pub fn sum_flow(alloc: Global, net: &Net, flow: &[u64], side: Side) -> Result<Sums, AllocError>
    requires one_each { length flow.now ≡ edge_count net.now }
    requires small { (e : ℕ) → e < edge_count net.now → slice_index flow.now e ≤ most_wide_units }
    ensures far { IfOk result (λ sums. AreSumsAt net.now (far net.now side) (slice_index flow.now) sums.far.items) }
    ensures near { IfOk result (λ sums. AreSumsAt net.now (near net.now side) (slice_index flow.now) sums.near.items) }
{
    let mut at_far = vec![in alloc; 0; net.vertices() as usize]?;
    let mut at_near = vec![in alloc; 0; net.vertices() as usize]?;
    for e in 0..net.edges() {
        let units = flow[e as usize];
        at_far[far(net, side, e) as usize] += units;
        at_near[near(net, side, e) as usize] += units;
    }
    Ok(Sums {
        far: at_far,
        near: at_near,
    })
}

impl Sums {
    /// How much more an inner vertex has at the far ends of edges than at their near ends.
    pub fn surplus(&self, net: &Net, v: u32) -> u64
        requires vertex { v < net.now.vertices }
        requires far { vec_len self.now.far ≡ net.now.vertices }
        requires near { vec_len self.now.near ≡ net.now.vertices }
        ensures { result ≡ (if is_inner net.now v then slice_index self.now.far.items v - slice_index self.now.near.items v else 0) }
    {
        if is_inner(net, v) {
            self.far[v as usize].saturating_sub(self.near[v as usize])
        } else {
            0
        }
    }

    /// How much a vertex takes up: an inner one what it lacks, the others everything.
    pub fn lack(&self, net: &Net, v: u32) -> u64
        requires vertex { v < net.now.vertices }
        requires far { vec_len self.now.far ≡ net.now.vertices }
        requires near { vec_len self.now.near ≡ net.now.vertices }
        ensures { result ≡ (if is_inner net.now v then slice_index self.now.near.items v - slice_index self.now.far.items v else 18446744073709551615) }
    {
        if is_inner(net, v) {
            self.near[v as usize].saturating_sub(self.far[v as usize])
        } else {
            u64::MAX
        }
    }
}
