//! What a search stands on that is trusted for nothing: lists of a fixed room, read and written by number without a claim, the net,
//! flows with one source and one sink, weighted paths, and counted work.
#![tactic(auto)]

pub use chance::Chance;
pub use flow_net::FlowNet;
pub use lists::{Amounts, NONE, Names};
pub use paths::Paths;
pub use pile::Pile;
pub use purse::Purse;
pub use view::View;

mod chance;
mod flow_net;
mod lists;
mod paths;
mod pile;
mod purse;
mod view;
