//! How wide the walks from each vertex to a sink can be.

ghost use Rattle.std.specs.Prelude.{◌≡◌, ◌<◌, length, slice_index, IfOk};
ghost use Rattle.decomposition.specs.Graph.{edge_count};
ghost use Rattle.greedy_paths.specs.Widths.{IsWidthFrom, HeadsHaveWidths, AreWidths};

use dag_net::Net;
use std::alloc::{AllocError, Global};

/// The greatest width of a walk from `v` to a sink, by the widths at the heads of its edges.
fn width_from(net: &Net, rest: &[u64], widths: &[u64], v: u32) -> u64
    requires vertex { v < net.now.vertices }
    requires one_each { length rest.now ≡ edge_count net.now }
    requires count { length widths.now ≡ net.now.vertices }
    requires heads { HeadsHaveWidths net.now (slice_index rest.now) v widths.now }
    ensures { IsWidthFrom net.now (slice_index rest.now) v result }
{
    if net.is_sink(v) {
        return u64::MAX;
    }
    let mut width = 0;
    let mut out = net.first_out(v);
    while let Some(e) = out {
        width = width.max(rest[e as usize].min(widths[net.head(e) as usize]));
        out = net.next_out(e);
    }
    width
}

/// For each vertex the greatest width of a walk from it to a sink.
pub fn widths_to_sinks(alloc: Global, net: &Net, rest: &[u64]) -> Result<Vec<u64>, AllocError>
    requires { length rest.now ≡ edge_count net.now }
    ensures { IfOk result (λ widths. AreWidths net.now (slice_index rest.now) widths.items) }
{
    let mut widths = vec![in alloc; 0; net.vertices() as usize]?;
    let order = net.order();
    for k in (0..order.len()).rev() {
        let width = width_from(net, rest, &widths, order[k]);
        widths[order[k] as usize] = width;
    }
    Ok(widths)
}
