//! Why a text is no node graph.
ghost use Rattle.std.specs.Prelude.{◌≡◌};

use std::alloc::AllocError;
use thiserror::Error;

/// What is wrong with a line, in the order in which the causes count on one line.
#[derive(Clone, Copy, Debug, PartialEq, Eq)]
pub enum NodeWhy {
    /// The line is not blank and has more than 65,536 bytes.
    LongLine,
    /// It is not ignored, and is neither `node v w` nor `edge u v`.
    BadLine,
    /// The weight of a node line is none, or is above 10^12.
    BadWeight,
    /// An earlier node line has this vertex.
    RepeatedNode,
    /// An end of the edge has no earlier node line.
    UnknownNode,
    /// An earlier edge line has these ends in this order.
    RepeatedEdge,
    /// 4,096 lines before it are not ignored, and neither is it.
    TooMany,
    /// The edge closes a cycle with earlier ones. It comes only where no line has another cause.
    Cycle,
}

/// Why there is no node graph.
#[derive(Debug, Drop, Error)]
pub enum NodeFault {
    /// This line, counted from 1, is refused.
    #[error("line {line} is refused")]
    Refused { line: u64, why: NodeWhy },
    /// There was too little memory.
    #[error("out of memory")]
    Memory,
}

impl From<AllocError> for NodeFault {
    ghost use Rattle.std.specs.Prelude.{◌≡◌};
    ghost use Rattle.node_weights.specs.declared.node_fault.NodeFault.TheVariants.{Memory};

    ghost from_gives = { λ _ fault. fault ≡ Memory };

    fn from(_error: AllocError) -> Self {
        NodeFault::Memory
    }
}

/// Why a line was not taken.
#[derive(Debug, Drop)]
pub(crate) enum LineFault {
    /// The line is refused.
    Bad(NodeWhy),
    /// There was too little memory.
    Memory,
}

impl From<AllocError> for LineFault {
    ghost use Rattle.std.specs.Prelude.{◌≡◌};
    ghost use Rattle.node_weights.specs.declared.node_fault.LineFault.TheVariants.{Memory};

    ghost from_gives = { λ _ fault. fault ≡ Memory };

    fn from(_error: AllocError) -> Self {
        LineFault::Memory
    }
}
