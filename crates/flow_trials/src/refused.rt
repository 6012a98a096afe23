//! Blocks that are refused: the line that is named, and why.

use crate::runs::run_on;
use flow_io::Status;
use std::alloc::{AllocError, Global};
use std::test::Fail;

/// Inputs of one block, and the refusal.
const REFUSALS: [(&str, &str); 20] = [
    ("# x\n2\na b 1\nb a 1\n", "4 Cycle"),
    ("# x\n2\na a 1\n", "3 Cycle"),
    ("# x\n2\ns t 10.5\n", "3 BadWeight"),
    ("# x\n2\ns t 1000000000001\n", "3 BadWeight"),
    ("# x\ntwo\n", "2 BadCount"),
    ("# x\n2\ns t 5 6\n", "3 BadFields"),
    ("# x\n2\ns t 1\ns t 1\n", "4 RepeatedEdge"),
    ("# x\n3\ns a 3\na t 5\n", "3 Unconserved"),
    ("# x\n#S a b\n", "2 BadCount"),
    ("# x\n#S a b", "2 BadCount"),
    ("# x\n#S a", "2 BadCount"),
    ("# x\n#S a\n# y", "2 ShortConstraint"),
    ("# x\n#S\n2\ns t 1\n", "2 ShortConstraint"),
    ("# x\n#S s\n2\ns t 1\n", "2 ShortConstraint"),
    ("# x\n#S s u\n2\ns t 1\n", "2 UnknownEdge"),
    ("# x\n#S t s\n2\ns t 1\n", "2 UnknownEdge"),
    ("# x\n#S s t\n#S s t u\n2\ns t 1\n", "3 UnknownEdge"),
    ("# x\n#S s t\ntwo", "3 BadCount"),
    ("# x\n#S s u\n2\na b 1\nb a 1\n", "5 Cycle"),
    ("# x\n#S s t\n3\ns a 3\na t 5\n", "2 UnknownEdge"),
];

/// Whether the output on this input is this refusal alone.
fn is_refused(alloc: Global, input: &str, refusal: &str) -> Result<bool, AllocError> {
    for chunk in [1, 3, 4096usize] {
        let ran = run_on(alloc, &[], input, chunk)?;
        let report = format!(in alloc; "graph 1 x\nmodel exact\nrefused {refusal}\nend\n")?;
        let told = ran.out.bytes() == report.as_bytes() && ran.notes.bytes().is_empty();
        if !told || ran.status != Status::Refused {
            return Ok(false);
        }
    }
    Ok(true)
}

#[test]
fn refusals(rt: HostRuntime) -> Result<(), Fail> {
    let alloc = rt.alloc();
    for (input, refusal) in REFUSALS {
        assert!(rt; is_refused(alloc, input, refusal)?, "{refusal}: {input}");
    }
    Ok(())
}

/// A block of a line for each number from 1 on below the end, with a text before and behind it, between these lines.
fn numbered(
    alloc: Global,
    head: &str,
    line: (&str, &str),
    end: u32,
    tail: &str,
) -> Result<String, AllocError> {
    let (before, behind) = line;
    let mut text = String::from_str(alloc, head)?;
    for v in 1..end {
        text.push_str(&format!(in alloc; "{before}{v}{behind}\n")?)?;
    }
    text.push_str(tail)?;
    Ok(text)
}

#[test]
fn limits(rt: HostRuntime) -> Result<(), Fail> {
    let alloc = rt.alloc();
    let mut long = String::from_str(alloc, "# x\n2\ns")?;
    for _ in 0..65_533u32 {
        long.push(' ')?;
    }
    long.push_str("t 1\n")?;
    let star = numbered(alloc, "# x\n0\n", ("s v", " 0"), 4_098, "")?;
    let crowd = numbered(alloc, "# x\n", ("#S s v", ""), 258, "2\ns t 1\n")?;
    let again = numbered(alloc, "# x\n", ("#S s v", ""), 257, "#S s v1\n2\ns t 1\n")?;
    let rows = [
        (long, "3 LongLine"),
        (star, "4099 TooManyEdges"),
        (crowd, "258 TooManyConstraints"),
        (again, "2 UnknownEdge"),
    ];
    for (input, refusal) in &rows {
        assert!(rt; is_refused(alloc, input.as_str(), refusal)?, "{refusal}");
    }
    Ok(())
}
