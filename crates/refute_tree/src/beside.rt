//! What is kept beside the first box, so that it need not be found anew at each token.

use crate::ends::Known;
use crate::sums::Weights;

/// The sums of the first box, and how far its walks are known to go along the rules.
#[derive(Debug, Drop)]
pub struct Beside<'a> {
    pub sums: Weights,
    pub known: Known<'a>,
}
