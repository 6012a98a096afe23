//! Paths that are added to the booked ones.
ghost use Rattle.std.specs.Prelude.{◌≡◌, ◌≤◌, ◌==◌, length, slice_index, All, IfOk, IsTrue};
ghost use Rattle.std.specs.List.{list_all};
ghost use Rattle.decomposition.specs.Answer.{IsAnswer};
ghost use Rattle.decomposition.specs.Graph.{edge_count};
ghost use Rattle.flow_solver.specs.Widened.{IsWidened};

use crate::thin::left_of;
use dag_net::{Answer, Net};
use greedy_paths::{add_along, units_on, widest_path};
use std::alloc::{AllocError, Global};

/// The booked paths, and while there are fewer than k the widest path of what all before it leave of the weights.
pub fn with_widest(
    alloc: Global,
    net: &Net,
    weights: &[u64],
    booked: Answer,
    k: u32,
) -> Result<Answer, AllocError>
    requires one_each { length weights.now ≡ edge_count net.now }
    requires small { All (λ w. w ≤ 1000000000000) weights.now }
    requires answer { IsAnswer net.now booked }
    requires units { IsTrue (list_all (λ entry. entry.1 == 1) booked) }
    requires fits { length booked ≤ k }
    ensures widened { IfOk result (IsWidened net.now (slice_index weights.now) booked k) }
    ensures few { IfOk result (λ a. length a ≤ k) }
{
    let mut sums = units_on(alloc, net, &booked)?;
    let mut paths = booked;
    while paths.len() < k as usize {
        let left = left_of(alloc, weights, &sums)?;
        let Some((path, width)) = widest_path(alloc, net, &left)? else {
            break;
        };
        add_along(&mut sums, path.as_slice(), width);
        paths.push(path, width)?;
    }
    Ok(paths)
}
