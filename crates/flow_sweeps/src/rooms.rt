//! How much room searches over a kernel ask for. What has no room is given up, and costs an answer, never a wrong one.

/// The walks of a half have at most so many edges in all, and so have the paths of an answer.
const MOST_LINKS: u32 = 1048576;

/// So many cuts are tried at the start of a sweep, at most.
pub const MOST_ROUNDS: u32 = 500;

/// Rooms for nets of so many vertices and edges, whose paths have at most so many edges.
#[derive(Clone, Copy)]
pub struct Rooms {
    pub vertices: u32,
    pub edges: u32,
    pub longest: u32,
    /// Initial parts of a sweep, and pieces of one half.
    pub parts: u32,
    pub pieces: u32,
    /// Edges of the walks of a half, and of the paths of an answer.
    pub links: u32,
}

impl Rooms {
    /// The rooms of a kernel. A share makes fewer pieces than it has bins, so that each half has at most one more for each edge.
    pub fn of(vertices: u32, edges: u32, longest: u32) -> Rooms {
        let parts = edges.saturating_add(MOST_ROUNDS).saturating_add(1);
        let half = parts.saturating_add(edges);
        let pieces = half.saturating_mul(2);
        let walks = pieces.saturating_mul(longest.saturating_add(1));
        Rooms {
            vertices,
            edges,
            longest,
            parts,
            pieces,
            links: walks.min(MOST_LINKS),
        }
    }
}
