//! The program `flowpaths`: words, the reading of an input, and a report for each of its blocks.
#![tactic(auto)]

mod accepted;
mod call;
mod command;
mod examples;
mod generated;
mod given;
mod numbers;
mod reporting;
mod seeded;
mod settings;
mod solving;
mod tally;
mod telling;
mod words;

pub use accepted::{right_reports_are_accepted, solved_reports_are_accepted};
pub use call::flowpaths;
pub use examples::{words_are_refused, words_are_taken};
pub use reporting::solve_body;
pub use seeded::demo;
pub use settings::Settings;
pub use solving::solve_block;
pub use telling::tell;
pub use words::WordFault;
