//! Graphs of as many edges as there may be: the reports, and what the checker says of them.

use crate::checks::{NAMES, check, inputs_of};
use crate::runs::run;
use flow_io::{MemInputs, MemOutput, Status};
use std::alloc::{AllocError, Global};
use std::test::Fail;

/// The most edges of a block.
const EDGES: u32 = 4_096;

/// The room of an output that holds a report on so many edges.
const ROOM: usize = 1 << 18;

/// Edges one behind the other.
fn chain(alloc: Global) -> Result<String, AllocError> {
    let mut text = String::from_str(alloc, "# long\n0\n")?;
    for e in 0..EDGES {
        let next = e + 1;
        text.push_str(&format!(in alloc; "v{e} v{next} 7\n")?)?;
    }
    Ok(text)
}

/// The beginning of the report on it, as far as the edge of the antichain.
fn chain_report(alloc: Global) -> Result<String, AllocError> {
    let head = "graph 1 long\nmodel exact\nmark optimal\nlower 1\nupper 1\npath 7";
    let mut text = String::from_str(alloc, head)?;
    for v in 0..=EDGES {
        text.push_str(&format!(in alloc; " v{v}")?)?;
    }
    text.push_str("\ncert wide 1\nedge ")?;
    Ok(text)
}

/// Edges side by side.
fn star(alloc: Global) -> Result<String, AllocError> {
    let mut text = String::from_str(alloc, "# broad\n0\n")?;
    for v in 1..=EDGES {
        text.push_str(&format!(in alloc; "s v{v} 1\n")?)?;
    }
    Ok(text)
}

/// The report on a graph, where the run ends well.
fn report_on(alloc: Global, graph: &str) -> Result<String, Fail> {
    let mut inputs = MemInputs::new(alloc, 4096);
    inputs.add("-", graph.as_bytes())?;
    let ran = run(alloc, &[], &mut inputs, MemOutput::new(alloc, 4096, ROOM)?)?;
    if ran.status != Status::Clean {
        return Ok(String::new(alloc));
    }
    Ok(String::from_str(alloc, str::from_utf8(ran.out.bytes())?)?)
}

/// Whether the checker says yes, and nothing else, of a report on a graph.
fn is_answered_yes(alloc: Global, graph: &str, report: &str) -> Result<bool, AllocError> {
    let mut inputs = inputs_of(alloc, graph, report, 4096)?;
    let checked = check(
        alloc,
        &NAMES,
        &mut inputs,
        MemOutput::new(alloc, ROOM, ROOM)?,
    )?;
    Ok(checked.status == Status::Clean && checked.out.bytes() == b"graph 1 yes\n".as_slice())
}

#[test]
fn as_many_edges_as_there_may_be(rt: HostRuntime) -> Result<(), Fail> {
    let alloc = rt.alloc();
    let broad = "graph 1 broad\nmodel exact\nmark optimal\nlower 4096\nupper 4096\npath 1 s ";
    let rows = [
        (chain(alloc)?, chain_report(alloc)?),
        (star(alloc)?, String::from_str(alloc, broad)?),
    ];
    for (graph, begun) in &rows {
        let report = report_on(alloc, graph)?;
        assert!(rt; report.as_str().starts_with(begun.as_str()), "{begun}");
        assert!(rt;
            is_answered_yes(alloc, graph, &report)?,
            "the report of {begun}"
        );
    }
    Ok(())
}
