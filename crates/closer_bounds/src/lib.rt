//! Looks for closer bounds where the search by the rule list was spent: answers near the optimum, and short refutations.
//!
//! Where paths are counted it routes at the width, sweeps, and looks at neighbourhoods; refutations are looked for from the lower bound
//! up, and for one path fewer than are known. Where the error is to be least it descends, and looks for refutations from the error down.
//! Trusted for nothing but being safe and coming to an end: what it gives counts only after it was checked.
#![tactic(auto)]

pub use closer::{Closer, Tree};
pub use fewest::{Counted, closer_fewest};
pub use nearest::{Weighed, closer_nearest};

mod budget;
mod closer;
mod deciding;
mod fewest;
mod nearest;
