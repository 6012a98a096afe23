//! Whether a run is ahead of the walk of a slot, or on its way: then the walk may contain it.

ghost use Rattle.std.specs.Prelude.{◌≡◌, ◌↔◌, ◌-◌, ◌<◌, ◌≤◌, drop, eqb, length, vec_len, IsTrue, MatchOption};
ghost use Rattle.std.specs.List.{IsDistinct};
ghost use Rattle.decomposition.specs.Graph.{IsRun};
ghost use Rattle.decomposition.specs.Reach.{IsBegun};
ghost use Rattle.subpath_rules.specs.Follows.{agree, Overlaps};
ghost use Rattle.link_cells.specs.Links.{walk_of};
ghost use Rattle.refute_tree.specs.Ends.{IsOnWay};
ghost use Rattle.refute_tree.specs.Misses.{IsAhead, IsLengthFrom, IsNowhere, LeadsTo};
ghost use Rattle.refute_tree.specs.OneBox.{IsOneBox};

use crate::one_box::OneBox;
use crate::sums::Weights;
use dag_net::Net;
use link_cells::Incidence;

/// Whether the walk of a slot of the box of a weight that may be positive leads to the run. Empty walks do, and these are mostly the last.
pub fn is_ahead(net: &Net, one: &OneBox, sums: &Weights, run: &[u32]) -> bool
    requires kept { IsOneBox net.now one.now }
    requires room { vec_len sums.now.uppers ≡ length one.now.ranges.items }
    requires run { IsRun net.now run.now }
    ensures { IsTrue result ↔ IsAhead net.now sums.now.uppers.items one.now.links run.now }
{
    for k in (0..one.slots()).rev() {
        if sums.uppers[k as usize] >= 1 && leads_to(net, &one.links, k, run) {
            return true;
        }
    }
    false
}

/// Whether the walk of a slot of the box of a weight that may be positive overlaps the run. Only walks with the run's first edge can.
pub fn is_on_way(net: &Net, one: &OneBox, sums: &Weights, run: &[u32]) -> bool
    requires kept { IsOneBox net.now one.now }
    requires room { vec_len sums.now.uppers ≡ length one.now.ranges.items }
    requires run { IsRun net.now run.now }
    ensures { IsTrue result ↔ IsOnWay sums.now.uppers.items one.now.links run.now }
{
    prove!(run[0] < net.edges());
    let mut at = one.links.first_on(run[0]);
    while let Some(cell) = at {
        let slot = one.links.slot_of(cell);
        if sums.uppers[slot as usize] >= 1 && overlaps(&one.links, slot, run) {
            return true;
        }
        at = one.links.next_on(cell);
    }
    false
}

/// Whether the walk of the slot is empty, or its end leads to where the run begins.
fn leads_to(net: &Net, links: &Incidence, slot: u32, run: &[u32]) -> bool
    requires slot { slot < links.now.slots }
    requires begun { IsBegun net.now (walk_of links.now.links slot) }
    requires run { IsRun net.now run.now }
    ensures { IsTrue result ↔ LeadsTo net.now (walk_of links.now.links slot) run.now }
{
    prove!(run[0] < net.edges());
    match links.last_of(slot) {
        Some(last) => net.reaches(net.head(last), net.tail(run[0])),
        None => true,
    }
}

/// Whether, from the place on where the run's first edge stands in the walk, the two are equal as far as both go.
fn overlaps(links: &Incidence, slot: u32, run: &[u32]) -> bool
    requires slot { slot < links.now.slots }
    requires few { length (walk_of links.now.links slot) ≤ 4096 }
    requires once { IsDistinct eqb (walk_of links.now.links slot) }
    requires run { 0 < length run.now }
    ensures { IsTrue result ↔ Overlaps (walk_of links.now.links slot) run.now }
{
    match length_from(links, slot, run[0]) {
        Some(count) => ends_like(links, slot, count, run),
        None => false,
    }
}

/// How many edges of the walk stand from an edge on.
fn length_from(links: &Incidence, slot: u32, first: u32) -> Option<usize>
    requires slot { slot < links.now.slots }
    requires few { length (walk_of links.now.links slot) ≤ 4096 }
    ensures { MatchOption result
        (IsNowhere (walk_of links.now.links slot) first)
        (IsLengthFrom (walk_of links.now.links slot) first) }
{
    let mut count = 0;
    let mut at = links.last_cell(slot);
    while let Some(cell) = at {
        count += 1;
        if links.edge_of(cell) == first {
            return Some(count);
        }
        at = links.cell_before(cell);
    }
    None
}

/// Whether the last `count` edges of the walk and the run are equal as far as both go.
fn ends_like(links: &Incidence, slot: u32, count: usize, run: &[u32]) -> bool
    requires slot { slot < links.now.slots }
    requires count { count ≤ length (walk_of links.now.links slot) }
    ensures { result ≡ agree (drop (length (walk_of links.now.links slot) - count) (walk_of links.now.links slot)) run.now }
{
    let mut at = links.last_cell(slot);
    let mut left = count;
    while left > 0 {
        left -= 1;
        let cell = at.unwrap();
        if left < run.len() && links.edge_of(cell) != run[left] {
            return false;
        }
        at = links.cell_before(cell);
    }
    true
}
