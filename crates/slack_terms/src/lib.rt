//! Paths that carry a weight and a slack: what is said of a graph by them, and laws over boxes and tokens.
#![tactic(auto)]

pub use slack_path::SlackPath;
pub use slacked::Slacked;
pub use solved::{SlackCert, SlackSolved, SlackTrail};
pub use token::SlackToken;
pub use tokens::SlackTokens;

pub mod laws;
mod slack_path;
mod slacked;
mod solved;
mod token;
mod tokens;
