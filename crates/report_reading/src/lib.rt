//! The text of reports, and its reader.
#![tactic(auto)]

mod cert_lines;
mod draft;
pub mod examples;
mod fields;
mod head_lines;
pub mod laws;
mod names;
mod numbers;
mod order;
mod path_lines;
mod read_fault;
mod reader;
mod steps;
mod trail_lines;
pub mod words;

pub use read_fault::{ReadFault, ReadRefusal, ReadWhy};
pub use reader::read_report;
