//! What is found for a graph by paths with slacks.

use crate::slacked::Slacked;
use crate::tokens::SlackTokens;
use dag_net::Ids;
use report_terms::Mark;

/// A limit on the total slack, and the tokens of a search that tries to refute it.
#[derive(Debug, Drop)]
pub struct SlackTrail {
    pub limit: u64,
    pub tokens: SlackTokens,
}

/// What shows the lower bound, or that there is no answer.
#[derive(Debug, Drop)]
pub enum SlackCert {
    /// The bound is 0 and needs nothing.
    Zero,
    /// Edges with a weight of at least 1, no two of which lie on one path.
    Wide(Ids),
    /// A limit, and the tokens that refute it.
    Tree(SlackTrail),
}

/// What was found for a graph: paths, bounds on the least total slack, what shows the lower one, and how far the search came where it is not done.
#[derive(Debug, Drop)]
pub struct SlackSolved {
    pub mark: Mark,
    pub lower: Option<u64>,
    pub upper: Option<u64>,
    pub paths: Slacked,
    pub cert: SlackCert,
    pub trail: Option<SlackTrail>,
}
