//! Lists of edges in cells linked by index: lists that share their beginnings, and links of slots and edges that stand in two lists each.
#![tactic(auto)]

pub use cells::{Cells, Tail};
pub use incidence::{Cell, Incidence};

mod cells;
mod incidence;
