//! Texts of reports, one behind the other: how they are cut, and which model they name.
#![tactic(auto)]

pub mod laws;
