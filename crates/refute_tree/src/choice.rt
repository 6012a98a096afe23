//! What is noted of a choice, so that it can be undone.

/// A choice that was made at a box. The box after it is kept; what is noted here leads back to the box before it.
#[derive(Clone, Copy, Debug)]
pub enum Choice {
    /// The walk of the slot went on by the edge.
    Step { slot: u32, edge: u32 },
    /// The greatest weight of the slot, which was `hi`, was lowered; in the half that is still to come the least one is `lo`.
    Lower { slot: u32, lo: u64, hi: u64 },
    /// The least weight of the slot, which was `lo`, was raised above the middle.
    Upper { slot: u32, lo: u64 },
}
