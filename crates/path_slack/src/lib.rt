//! Whether paths with slacks explain the weights of a net.
#![tactic(auto)]

pub use checked::check_paths;
pub use fitting::fits;
pub use slack_terms::{SlackPath, Slacked};

mod checked;
mod fitting;
mod loads;
mod ordered;
