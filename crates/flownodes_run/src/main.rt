//! The program `flownodes`: the host's words, inputs and outputs for the top call.
#![tactic(auto)]

use flow_io::{HostInputs, HostOutput, Status};
use flownodes_cli::{flownodes, tell};
use program_runs::words_after_name;
use std::process::ExitCode;

fn main(rt: HostRuntime) -> ExitCode {
    ExitCode::from(run(&rt).code())
}

/// Runs the program on the words after its own name.
fn run(rt: &HostRuntime) -> Status {
    let mut notes = HostOutput::new(rt.stderr());
    match words_after_name(rt) {
        Ok(words) => {
            let mut inputs = HostInputs::new(rt);
            let mut out = HostOutput::new(rt.stdout());
            flownodes(rt.alloc(), &words, &mut inputs, &mut out, &mut notes)
        }
        Err(status) => {
            tell(status, &mut notes);
            status
        }
    }
}
