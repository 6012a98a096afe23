//! Why a block is refused.

/// What is wrong with a block, in the order in which the causes count on one line.
#[derive(Clone, Copy, Debug, PartialEq, Eq)]
pub enum Why {
    /// A line that is not blank has more than 65,536 bytes.
    LongLine,
    /// The count line is no number, or there is none.
    BadCount,
    /// An edge line has another number of fields than the model asks for.
    BadFields,
    /// A weight is no number, or is too large.
    BadWeight,
    /// A lower bound is above its upper bound.
    BadRange,
    /// An edge stands twice.
    RepeatedEdge,
    /// There are more than 4,096 edges.
    TooManyEdges,
    /// There are more than 256 distinct constraints.
    TooManyConstraints,
    /// A constraint lists fewer than two vertices.
    ShortConstraint,
    /// An edge closes a cycle with the edges before it.
    Cycle,
    /// Two neighbours in a constraint are joined by no edge.
    UnknownEdge,
    /// An inner vertex receives another weight than it sends on.
    Unconserved,
}

/// A refusal, with the number of the line that it names, counted from 1 over the whole input.
#[derive(Clone, Copy, Debug, PartialEq, Eq)]
pub struct Refusal {
    pub line: u64,
    pub why: Why,
}
