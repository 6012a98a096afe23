//! The writer of reports, which passes on their data and their reader.
#![tactic(auto)]

mod certs;
mod digits;
mod page;
mod paths;
mod solved;
mod trails;
mod writer;

pub use digits::Digits;
pub use report_reading::{ReadFault, ReadRefusal, ReadWhy, examples, laws, read_report};
pub use report_terms::{Body, Cert, Decision, Mark, Report, Side, Solved, Token, Tokens, Trail};
pub use writer::write_report;
