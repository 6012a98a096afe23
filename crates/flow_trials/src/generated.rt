//! Runs over generated texts.

use crate::rows::ONE;
use crate::runs::{ROOM, run};
use flow_io::{MemInputs, MemOutput, Status};
use flowpaths_cli::demo;
use std::test::Fail;

/// The words of a run, the lines that it writes and its status.
const COUNTS: [(&[&str], &str, Status); 2] = [
    (
        &["--demo", "1"],
        "blocks 40\noptimal 40\nbounds 0\npaths 128\n",
        Status::Clean,
    ),
    (
        &["--demo=1", "-"],
        "blocks 40\noptimal 40\nbounds 0\npaths 128\n",
        Status::Clean,
    ),
];

/// The beginning of the text that the seed 1 gives.
const TEXT: &str =
    "# demo 1\n6\ns a1 32\na1 b0 16\nb0 t 23\na1 b2 16\nb2 t 16\ns a0 7\na0 b0 7\n# demo 2\n";

#[test]
fn the_seed_1_gives_this_text(rt: HostRuntime) -> Result<(), Fail> {
    let text = demo(rt.alloc(), 1)?;
    assert!(rt; text.as_slice().starts_with(TEXT.as_bytes()));
    Ok(())
}

/// The first call of these inputs fails, so a run that selects or reads one of them ends with a fault.
#[test]
fn graphs_are_counted(rt: HostRuntime) -> Result<(), Fail> {
    let alloc = rt.alloc();
    for (words, lines, status) in COUNTS {
        let mut inputs = MemInputs::new(alloc, 16);
        inputs.add("-", ONE.as_bytes())?;
        inputs.fail_at(0)?;
        let ran = run(
            alloc,
            words,
            &mut inputs,
            MemOutput::new(alloc, ROOM, ROOM)?,
        )?;
        assert_eq!(rt; ran.status, status, "{words:?}");
        assert!(rt; ran.out.bytes() == lines.as_bytes(), "{words:?}");
        assert!(rt; ran.notes.bytes().is_empty(), "{words:?}");
    }
    Ok(())
}

#[test]
fn room_for_lines_ends(rt: HostRuntime) -> Result<(), Fail> {
    let alloc = rt.alloc();
    let mut inputs = MemInputs::new(alloc, 16);
    let ran = run(
        alloc,
        &["--demo", "1"],
        &mut inputs,
        MemOutput::new(alloc, 7, 12)?,
    )?;
    assert_eq!(rt; ran.status, Status::Fault);
    assert!(rt; ran.out.bytes() == "blocks 40\nop".as_bytes());
    Ok(())
}
