//! Sends what vertices have too much on to others, or finds the cut that shows that this cannot be done.

ghost use Rattle.std.specs.Prelude.{◌≡◌, ◌<◌, ◌≤◌, ℕ, nat_lt, length, slice_index, IsTrue, IfOk, IfNone, IfSome, OnOk};
ghost use Rattle.decomposition.specs.Graph.{IsNet};
ghost use Rattle.decomposition.specs.Answer.{is_ordered};
ghost use Rattle.decomposition.specs.Certificates.{IsCut};
ghost use Rattle.dag_net.specs.Entering.{EnterFrom};
ghost use Rattle.lower_flow.specs.Residual.{deficit, IsCleared, IsRanged, residual};
ghost use Rattle.lower_flow.specs.Search.{IsSearch, IsTarget};
ghost use Rattle.lower_flow.specs.Found.{with_ranges};
ghost use Rattle.lower_flow.specs.Clearing.{IsSent, AreMarked};

use crate::ends::{far, room_above, room_below};
use crate::search::{Search, Target};
use dag_net::{Entering, Ids, Net, Range};
use decomposition::Side;
use std::alloc::{AllocError, Global};

/// Sends the amount to the target from where its way begins.
fn send(net: &Net, ranges: &[Range], flow: &mut [u64], side: Side, search: &Search, target: Target)
    requires ranged { IsRanged net.now ranges.now flow.old }
    requires search { IsSearch (residual net.now ranges.now side (slice_index flow.old)) search.now.entries.items search.now.marked.items }
    requires target { IsTarget (residual net.now ranges.now side (slice_index flow.old)) search.now.entries.items target }
    ensures ranged { IsRanged net.now ranges.now flow.new }
    ensures sent { IsSent net.now side (slice_index flow.old) (slice_index flow.new) }
{
    let mut at = target.place;
    while let Some((e, from)) = search.entries[at].way {
        if far(net, side, e) == search.entries[at].vertex {
            prove!(target.amount <= room_above(ranges, flow, e));
            flow[e as usize] += target.amount;
        } else {
            prove!(target.amount <= room_below(ranges, flow, e));
            flow[e as usize] -= target.amount;
        }
        at = from;
    }
}

/// The marked vertices, rising.
fn marked_vertices(alloc: Global, net: &Net, marked: &[bool]) -> Result<Ids, AllocError>
    requires { length marked.now ≡ net.now.vertices }
    ensures { IfOk result (AreMarked marked.now net.now.vertices) }
{
    let mut vertices = Ids::new(alloc);
    for v in 0..net.vertices() {
        if marked[v as usize] {
            vertices.push(v)?;
        }
    }
    Ok(vertices)
}

/// Sends on what vertices have too much, as seen from one side; gives the cut where some of it cannot be sent on.
pub fn clear(
    alloc: Global,
    net: &Net,
    entering: &Entering,
    ranges: &[Range],
    flow: &mut [u64],
    side: Side,
) -> Result<Option<Ids>, AllocError>
    requires net { IsNet net.now }
    requires entering { EnterFrom net.now 0 entering.now.first.items entering.now.next.items }
    requires ranged { IsRanged net.now ranges.now flow.old }
    ensures ranged { OnOk result (IsRanged net.now ranges.now flow.new) }
    ensures kept { OnOk result ((v : ℕ) → deficit net.now side (slice_index flow.new) v ≤ deficit net.now side (slice_index flow.old) v) }
    ensures cleared { IfOk result (λ cut. IfNone cut (IsCleared net.now side (slice_index flow.new))) }
    ensures cut { IfOk result (λ cut. IfSome cut (λ xs. IsCut (with_ranges net.now ranges.now) side xs × IsTrue (is_ordered nat_lt xs))) }
{
    let mut search = Search::from_surpluses(alloc, net, entering, ranges, flow, side)?;
    while let Some(target) = search.target {
        send(net, ranges, flow, side, &search, target);
        search = Search::from_surpluses(alloc, net, entering, ranges, flow, side)?;
    }
    if search.entries.is_empty() {
        return Ok(None);
    }
    Ok(Some(marked_vertices(alloc, net, &search.marked)?))
}
