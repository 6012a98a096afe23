//! Searches for answers near the optimum that are trusted for nothing: routing at the width, and descents.
#![tactic(auto)]

pub use descent::{Descent, Rounds};
pub use routing::{Routed, route};

mod descent;
mod draft;
mod half;
mod line;
mod passes;
mod paths;
mod routing;
mod spans;
