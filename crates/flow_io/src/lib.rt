//! Inputs and outputs that count their faults.
#![tactic(auto)]

mod bytes;
mod front;
mod host;
mod mem_inputs;
mod mem_output;
mod outside;
mod status;
mod sure;
mod whole;
mod word;

pub use bytes::Bytes;
pub use host::{HostInputs, HostOutput};
pub use mem_inputs::MemInputs;
pub use mem_output::MemOutput;
pub use outside::{Fault, Inputs, Output};
pub use status::Status;
pub use sure::{SureInputs, SureOutput};
pub use whole::write_whole;
pub use word::Word;
