//! Routing at the width: an answer of exactly one path for each edge of an antichain, each with the flow of its edge.
//!
//! The flows of the antichain must sum to the whole flow. The slots are routed from its heads to the sinks, and apart from that from its
//! tails to the sources; what both halves find is joined.

use crate::half::Half;
use dag_net::{Answer, Ids};
use search_rooms::{Amounts, Purse, View};
use std::alloc::{AllocError, Global};

/// What routing comes to.
#[derive(Drop)]
pub enum Routed {
    Found(Answer),
    /// There is none of so many paths.
    Never,
    Spent,
}

fn sum_of(flow: &Amounts, edges: &[u32]) -> u64 {
    let mut sum = 0u64;
    for &e in edges {
        sum = sum.saturating_add(flow.at(e));
    }
    sum
}

/// The path of a slot: back to a source, its edge of the antichain, on to a sink.
fn path_of(alloc: Global, back: &Half, on: &Half, slot: u32, edge: u32) -> Result<Ids, AllocError> {
    let mut path = Ids::new(alloc);
    let before = back.edges_of(alloc, slot)?;
    for &e in &before {
        path.push(e)?;
    }
    path.push(edge)?;
    let mut after = on.edges_of(alloc, slot)?;
    after.reverse();
    for &e in &after {
        path.push(e)?;
    }
    Ok(path)
}

/// One path for each edge of the antichain, as both halves went.
fn joined(
    alloc: Global,
    flow: &Amounts,
    antichain: &[u32],
    back: &Half,
    on: &Half,
) -> Result<Answer, AllocError> {
    let mut answer = Answer::new(alloc);
    let mut slot = 0u32;
    for &e in antichain {
        let weight = flow.at(e);
        if weight >= 1 {
            answer.push(path_of(alloc, back, on, slot, e)?, weight)?;
        }
        slot = slot.saturating_add(1);
    }
    Ok(answer)
}

/// Looks for an answer of one path for each edge of the antichain, for a balanced flow. Each look at a slot or vertex is one step.
pub fn route(
    alloc: Global,
    view: &View,
    flow: &Amounts,
    antichain: &[u32],
    purse: &mut Purse,
) -> Result<Routed, AllocError> {
    if sum_of(flow, antichain) != sum_of(flow, view.first_edges()) {
        return Ok(Routed::Never);
    }
    let mut on = Half::start(alloc, view, flow, antichain, true)?;
    match on.run(purse) {
        None => return Ok(Routed::Spent),
        Some(false) => return Ok(Routed::Never),
        Some(true) => {}
    }
    let mut back = Half::start(alloc, view, flow, antichain, false)?;
    match back.run(purse) {
        None => return Ok(Routed::Spent),
        Some(false) => return Ok(Routed::Never),
        Some(true) => {}
    }
    Ok(Routed::Found(joined(alloc, flow, antichain, &back, &on)?))
}
