//! Inputs and outputs that fail.

use crate::rows::{ONE, THREE, THREE_REPORTS};
use crate::runs::run;
use flow_io::{MemInputs, MemOutput, Status};
use std::test::Fail;

#[test]
fn reads_fail(rt: HostRuntime) -> Result<(), Fail> {
    let alloc = rt.alloc();
    for call in 0..5u64 {
        let mut inputs = MemInputs::new(alloc, 16);
        inputs.add("-", THREE.as_bytes())?;
        inputs.fail_at(call)?;
        let ran = run(alloc, &[], &mut inputs, MemOutput::new(alloc, 16, 4096)?)?;
        assert_eq!(rt; ran.status, Status::Fault, "call {call}");
        assert!(rt;
            THREE_REPORTS.as_bytes().starts_with(ran.out.bytes()),
            "call {call}"
        );
        assert!(rt;
            ran.notes.bytes() == "flowpaths: read or write fault\n".as_bytes(),
            "call {call}"
        );
    }
    Ok(())
}

#[test]
fn writes_fail(rt: HostRuntime) -> Result<(), Fail> {
    let alloc = rt.alloc();
    for call in 0..9u64 {
        let mut inputs = MemInputs::new(alloc, 16);
        inputs.add("-", THREE.as_bytes())?;
        let mut out = MemOutput::new(alloc, 7, 4096)?;
        out.fail_at(call)?;
        let ran = run(alloc, &[], &mut inputs, out)?;
        assert_eq!(rt; ran.status, Status::Fault, "write {call}");
        assert!(rt;
            THREE_REPORTS.as_bytes().starts_with(ran.out.bytes()),
            "write {call}"
        );
    }
    Ok(())
}

#[test]
fn room_ends(rt: HostRuntime) -> Result<(), Fail> {
    let alloc = rt.alloc();
    let mut inputs = MemInputs::new(alloc, 16);
    inputs.add("-", ONE.as_bytes())?;
    let ran = run(alloc, &[], &mut inputs, MemOutput::new(alloc, 7, 10)?)?;
    assert_eq!(rt; ran.status, Status::Fault);
    assert!(rt; ran.out.bytes() == "graph 1 on".as_bytes());
    Ok(())
}

#[test]
fn no_such_input(rt: HostRuntime) -> Result<(), Fail> {
    let alloc = rt.alloc();
    let mut inputs = MemInputs::new(alloc, 16);
    inputs.add("-", THREE.as_bytes())?;
    let ran = run(
        alloc,
        &["absent.graph"],
        &mut inputs,
        MemOutput::new(alloc, 16, 4096)?,
    )?;
    assert_eq!(rt; ran.status, Status::Fault);
    assert!(rt; ran.out.bytes().is_empty());
    Ok(())
}
