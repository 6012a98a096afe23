//! Whether what a report shows as a certificate is one, and whether a report is true.
#![tactic(auto)]

pub use crowd::check_crowd;
pub use cut::check_cut;
pub use paths::are_paths;
pub use report::{Verdict, check_report};
pub use tree::{TreeVerdict, check_tree};
pub use wide::check_wide;

mod certs;
mod crowd;
mod cut;
mod decisions;
mod lines;
mod marks;
mod paths;
mod report;
mod safe_runs;
mod trails;
mod tree;
mod wide;
