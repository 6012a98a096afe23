//! The program `flowcheck`: words, the reading of two inputs, and a line for each block that has a report.
#![tactic(auto)]

mod call;
mod checking;
pub mod examples;
mod judging;
mod laws;
mod model;
mod outcome;
mod printing;
mod rest;
mod right_reports;
mod short_line;
mod telling;
mod verdicts;
mod words;

pub use call::flowcheck;
pub use judging::judge;
pub use laws::yes_is_true;
pub use model::model_in;
pub use outcome::{Outcome, status_after};
pub use printing::{write_counts, write_outcome};
pub use rest::{Rest, Text};
pub use right_reports::{right_reports_are_answered_yes, right_reports_are_clean};
pub use telling::tell;
