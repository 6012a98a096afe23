//! A path with a weight and a slack.

use dag_net::Ids;

/// A path, its weight, and its slack: how much of the error on each of its edges it covers.
#[derive(Debug, Drop)]
pub struct SlackPath {
    pub path: Ids,
    pub weight: u64,
    pub slack: u64,
}
