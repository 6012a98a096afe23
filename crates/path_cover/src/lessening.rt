//! Takes units off a flow until no search finds a way to less.

ghost use Rattle.std.specs.Prelude.{◌≡◌, ℕ, ◌+◌, ◌≤◌, length, slice_index, vec_len, IfOk, OnOk};
ghost use Rattle.decomposition.specs.Graph.{edge_count, IsNet};
ghost use Rattle.path_cover.specs.Carrying.{IsCarrying, most_at_first, arriving};
ghost use Rattle.path_cover.specs.Cut.{IsClosed};
ghost use Rattle.dag_net.specs.Entering.{EnterFrom};
ghost use Rattle.dag_net.specs.Marks.{is_set};
ghost use Rattle.path_cover.specs.Search.{MayTakeUnit};

use crate::search::{Search, can_spare};
use dag_net::{Entering, Net};
use std::alloc::{AllocError, Global};

/// Takes one unit off the way to the entry at place `last`, a sink.
fn take_unit(net: &Net, search: &Search, needed: &[bool], flow: &mut [u64], last: usize)
    requires { MayTakeUnit net.now needed.now flow.old search.now last }
    ensures carrying { IsCarrying net.now (is_set needed.now) (slice_index flow.new) }
    ensures less { arriving net.now (slice_index flow.new) + 1 ≡ arriving net.now (slice_index flow.old) }
    ensures few { (e : ℕ) → slice_index flow.new e ≤ slice_index flow.old e + net.now.vertices }
{
    let mut at = last;
    while let Some((e, from)) = search.entries[at].way {
        if net.head(e) == search.entries[at].vertex {
            prove!(can_spare(flow, needed, e));
            flow[e as usize] -= 1;
        } else {
            flow[e as usize] += 1;
        }
        at = from;
    }
}

/// Takes units off the flow while there is a way, and marks a closed set of vertices.
pub fn lessen(
    alloc: Global,
    net: &Net,
    entering: &Entering,
    needed: &[bool],
    flow: &mut [u64],
) -> Result<Vec<bool>, AllocError>
    requires net { IsNet net.now }
    requires entering { EnterFrom net.now 0 entering.now.first.items entering.now.next.items }
    requires needed { length needed.now ≡ edge_count net.now }
    requires one_each { length flow.old ≡ edge_count net.now }
    requires vertices { net.now.vertices ≤ 8192 }
    requires edges { edge_count net.now ≤ 4096 }
    requires small { (e : ℕ) → slice_index flow.old e ≤ most_at_first }
    requires carrying { IsCarrying net.now (is_set needed.now) (slice_index flow.old) }
    ensures carrying { OnOk result (IsCarrying net.now (is_set needed.now) (slice_index flow.new)) }
    ensures closed { IfOk result (λ marked. IsClosed net.now (is_set needed.now) (slice_index flow.new) (is_set marked.items)) }
    ensures marks { IfOk result (λ marked. vec_len marked ≡ net.now.vertices) }
{
    let mut search = Search::sink_from_sources(alloc, net, entering, flow, needed)?;
    while let Some(last) = search.sink {
        take_unit(net, &search, needed, flow, last);
        search = Search::sink_from_sources(alloc, net, entering, flow, needed)?;
    }
    Ok(search.marked)
}
