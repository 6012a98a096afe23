//! The loop of a program that answers the blocks of an input one after another.
#![tactic(auto)]

mod answering;
mod call;
mod piece;
mod reading;
mod stop;
mod text;
mod whole;
mod worker;

pub use call::run_input;
pub use piece::read_piece;
pub use reading::run_selected;
pub use stop::Stop;
pub use text::run_text;
pub use whole::read_input;
pub use worker::Worker;
