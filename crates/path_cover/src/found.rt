//! What shows a width.

use dag_net::{IdLists, Ids};

/// The fewest paths that have every needed edge, and as many needed edges of which no two lie on one path.
#[derive(Debug, Drop)]
pub struct Width {
    /// Paths that have every needed edge.
    pub cover: IdLists,
    /// Needed edges, rising, as many as there are paths.
    pub antichain: Ids,
}
