//! Constraints: which lists are read as runs.

use crate::blocks::first_graph;
use std::alloc::Global;
use std::test::Fail;

/// Whether the first block of a text is read as a graph with these runs.
fn has_runs(alloc: Global, text: &str, runs: &[&[u32]]) -> Result<bool, Fail> {
    let graph = first_graph(alloc, text)?;
    if graph.runs.len() != runs.len() {
        return Ok(false);
    }
    for (i, run) in runs.iter().enumerate() {
        if graph.runs.get(i).as_slice() != *run {
            return Ok(false);
        }
    }
    Ok(true)
}

#[test]
fn lists_are_read_as_runs(rt: HostRuntime) -> Result<(), Fail> {
    let alloc = rt.alloc();
    assert!(rt; has_runs(alloc, "# x\n#S s t\n2\ns t 1\n", &[&[0]])?);
    assert!(rt; has_runs(alloc, "# x\n#S s #t\n2\ns #t 1\n", &[&[0]])?);
    assert!(rt;
        has_runs(
            alloc,
            "# x\n#S s a t\n#S a t\n3\ns a 1\na t 1\n",
            &[&[0, 1], &[1]]
        )?
    );
    assert!(rt;
        has_runs(
            alloc,
            "# x\n#S a t\n# y\n\n#S  a\tt \r\n#S s a\n3\ns a 1\na t 1\n",
            &[&[1], &[0]]
        )?
    );
    assert!(rt; has_runs(alloc, "# x\n#Sub s t\n##S s t\n2\ns t 1\n", &[])?);
    assert!(rt; has_runs(alloc, "# x\n2\ns t 1\n#S s t\n2\ns t 1\n", &[])?);
    Ok(())
}
