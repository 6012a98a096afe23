//! The words of programs that name at most an input.
#![tactic(auto)]

mod file;

pub use file::file_in;
