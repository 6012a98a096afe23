//! What is shared out: parts, each a piece of the flow, and bins, each an edge or a piece of the other half.

/// A weight, and the name of what has it.
#[derive(Clone, Copy, Default)]
pub struct Load {
    pub weight: u64,
    pub name: u32,
}

/// A piece, and the bin that it is put into.
#[derive(Clone, Copy, Default)]
pub struct Given {
    pub bin: u32,
    pub piece: u32,
}

/// A cut that was made: of which initial part, of a piece of which weight, what was cut off, and how good it seemed.
#[derive(Clone, Copy)]
pub struct Cut {
    pub root: u32,
    pub weight: u64,
    pub off: u64,
    pub score: u32,
}
