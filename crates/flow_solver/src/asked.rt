//! What the solver is asked of a problem.

use dag_net::Mode;

/// The model of the answer, and how it is looked for.
#[derive(Clone, Copy, Debug)]
pub struct Asked {
    /// What is asked of an answer.
    pub mode: Mode,
    /// The most tokens of a search.
    pub nodes: u32,
    /// Whether the safe runs are listed.
    pub safe: bool,
}
