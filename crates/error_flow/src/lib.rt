//! The balanced flow nearest to weights, with a proof that none is nearer.
#![tactic(auto)]

pub use ascent::nearest;
pub use check::check_nearest;
pub use found::Nearest;
pub use laws::{certificates_prove, levels_bound, nearest_bounds_errors};
pub use levels::Levels;

mod ascent;
mod check;
mod climb;
mod drafting;
mod found;
mod laws;
mod levels;
