//! A flow within ranges, or what shows that there is none.

use dag_net::{Ids, Numbers};

/// A flow within ranges, or a cut.
#[derive(Debug, Drop)]
pub enum FlowOrCut {
    /// For each edge a number within its range; as much enters each inner vertex as leaves it.
    Flow(Numbers),
    /// Vertices, rising, none of them a sink: the lower bounds of the edges that enter them sum to more than the upper bounds of those that leave them.
    InCut(Ids),
    /// Vertices, rising, none of them a source: the lower bounds of the edges that leave them sum to more than the upper bounds of those that enter them.
    OutCut(Ids),
}
