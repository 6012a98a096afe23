//! Lines that the texts of several programs have.
#![tactic(auto)]

mod heads;
mod lines;

pub use heads::{add_graph_line, add_refused_line};
pub use lines::{add_field, add_line};
