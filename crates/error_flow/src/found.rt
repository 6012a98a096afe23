//! What is found: a flow, and what proves it.

use crate::levels::Levels;
use dag_net::Numbers;

/// A balanced flow, levels that prove that none is nearer to the weights, and how much it changes them.
#[derive(Debug, Drop)]
pub struct Nearest {
    pub flow: Numbers,
    pub levels: Levels,
    pub change: u128,
}
