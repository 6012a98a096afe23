//! What is said of a block.

use crate::refusal::Refusal;
use crate::tokens::Tokens;
use dag_net::{Answer, IdLists, Ids, Mode};
use decomposition::{Decision, Side};
use flow_io::Bytes;

/// How good the paths of a report are.
#[derive(Clone, Copy, Debug, PartialEq, Eq)]
pub enum Mark {
    /// No answer is better.
    Optimal,
    /// There is no answer.
    Infeasible,
    /// The best value lies between the bounds, as far as there are bounds.
    Bounds,
}

/// A decision, and the tokens of a search that tries to refute it.
#[derive(Debug, Drop)]
pub struct Trail {
    pub decision: Decision,
    pub tokens: Tokens,
}

/// What shows the lower bound, or that there is no answer.
#[derive(Debug, Drop)]
pub enum Cert {
    /// The bound is 0 and needs nothing.
    Zero,
    /// Edges with a lower bound of at least 1, no two of which lie on one path.
    Wide(Ids),
    /// A decision, and the tokens that refute it.
    Tree(Trail),
    /// Vertices that must receive more than they can send on, or must send more than they can receive.
    Cut(Side, Ids),
    /// An edge, and rules through it: more than it can carry paths, no two on one path.
    Crowd(u32, Ids),
}

/// What was found for a graph: paths, bounds on the best value, what shows the lower one,
/// how far the search came where it is not done, and the runs that every answer contains.
#[derive(Debug, Drop)]
pub struct Solved {
    pub mark: Mark,
    pub lower: Option<u64>,
    pub upper: Option<u64>,
    pub paths: Answer,
    pub cert: Cert,
    pub trail: Option<Trail>,
    pub safe: Option<IdLists>,
}

/// Why a block is refused, or what was found for its graph.
#[derive(Debug, Drop)]
pub enum Body {
    Refused(Refusal),
    Solved(Solved),
}

/// The report on one block: its number, counted from 1, and its name.
#[derive(Debug, Drop)]
pub struct Report {
    pub index: u64,
    pub name: Bytes,
    pub mode: Mode,
    pub body: Body,
}
