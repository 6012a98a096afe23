//! Runs of the top call on one input in memory.

use flow_io::{MemInputs, MemOutput, Status};
use flowpaths_cli::flowpaths;
use std::alloc::{AllocError, Global};

/// What a run answered and wrote.
#[derive(Drop)]
pub struct Ran {
    pub status: Status,
    pub out: MemOutput,
    pub notes: MemOutput,
}

/// The room of an output that holds every report of a trial.
pub const ROOM: usize = 4096;

/// The words as strings of their own.
pub fn owned(alloc: Global, words: &[&str]) -> Result<Vec<String>, AllocError> {
    let mut owned = Vec::new(alloc);
    for word in words {
        owned.push(String::from_str(alloc, word)?)?;
    }
    Ok(owned)
}

/// Runs the top call on these words and inputs.
pub fn run(
    alloc: Global,
    words: &[&str],
    inputs: &mut MemInputs,
    out: MemOutput,
) -> Result<Ran, AllocError> {
    let mut out = out;
    let mut notes = MemOutput::new(alloc, ROOM, ROOM)?;
    let words = owned(alloc, words)?;
    let status = flowpaths(alloc, &words, inputs, &mut out, &mut notes);
    Ok(Ran { status, out, notes })
}

/// Runs the top call on these words and this standard input. What is read and what is written goes in pieces of so many bytes.
pub fn run_on(alloc: Global, words: &[&str], input: &str, chunk: usize) -> Result<Ran, AllocError> {
    let mut inputs = MemInputs::new(alloc, chunk.max(1));
    inputs.add("-", input.as_bytes())?;
    let out = MemOutput::new(alloc, chunk.max(1), ROOM)?;
    run(alloc, words, &mut inputs, out)
}
