//! What both programs share: the words of the command line, the words for a run (definitions), and the problem of a graph.
#![tactic(auto)]

mod host_words;
mod problem;

pub use host_words::words_after_name;
pub use problem::problem_of;
