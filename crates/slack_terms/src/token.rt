//! Tokens for boxes of paths with slacks.

/// One step of a refutation.
#[derive(Clone, Copy, Debug, PartialEq, Eq)]
pub enum SlackToken {
    /// The least slacks together are above the limit.
    Over,
    /// The slacks cannot cover how far the weights must lie from that of the edge.
    Short(u32),
    /// The weights of the slot are halved.
    Split(u32),
    /// The slacks of the slot are halved.
    Cut(u32),
    /// The walk of the slot goes on by each next edge.
    Step(u32),
}
