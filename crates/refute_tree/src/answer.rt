//! The answer of the first box: the walk of each slot that may have weight, spelled out.

ghost use Rattle.std.specs.Prelude.{◌≡◌, ◌<◌, ◌^◌, length, vec_len, IfOk};
ghost use Rattle.decomposition.specs.Held.{box_paths};
ghost use Rattle.link_cells.specs.Links.{walk_of};
ghost use Rattle.refute_tree.specs.OneBox.{place_of};
ghost use Rattle.refute_tree.specs.Sums.{AreBounds};

use crate::one_box::OneBox;
use crate::sums::Weights;
use dag_net::{Answer, Ids};
use link_cells::Incidence;
use std::alloc::{AllocError, Global};

/// The edges of the walk of a slot, from the first to the last.
fn edges_of(alloc: Global, links: &Incidence, slot: u32) -> Result<Vec<u32>, AllocError>
    requires { slot < links.now.slots }
    ensures { IfOk result (λ edges. edges.items ≡ walk_of links.now.links slot) }
{
    let mut edges = Vec::new(alloc);
    let mut at = links.last_cell(slot);
    while let Some(cell) = at {
        edges.push(links.edge_of(cell))?;
        at = links.cell_before(cell);
    }
    edges.reverse();
    Ok(edges)
}

/// The walk of a slot as a list of its own.
fn spell(alloc: Global, links: &Incidence, slot: u32) -> Result<Ids, AllocError>
    requires { slot < links.now.slots }
    ensures { IfOk result (λ ids. ids ≡ walk_of links.now.links slot) }
{
    let edges = edges_of(alloc, links, slot)?;
    let mut ids = Ids::new(alloc);
    for &e in &edges {
        ids.push(e)?;
    }
    Ok(ids)
}

/// The walk of each slot of the box that may have weight, with its upper bound as the weight.
pub fn first_paths(alloc: Global, one: &OneBox, sums: &Weights) -> Result<Answer, AllocError>
    requires slots { one.now.links.slots ≡ length one.now.ranges.items }
    requires few { length one.now.ranges.items < 2 ^ 32 }
    requires room { vec_len sums.now.uppers ≡ length one.now.ranges.items }
    requires bounds { AreBounds (place_of one.now).box sums.now }
    ensures { IfOk result (λ a. a ≡ box_paths (place_of one.now).box (length (place_of one.now).box)) }
{
    let mut answer = Answer::new(alloc);
    for k in 0..one.slots() {
        let upper = sums.uppers[k as usize];
        if upper >= 1 {
            answer.push(spell(alloc, &one.links, k)?, upper)?;
        }
    }
    Ok(answer)
}
