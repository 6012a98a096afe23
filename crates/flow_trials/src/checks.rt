//! Runs of the checker of reports on two inputs in memory.

use crate::free::FREE;
use crate::rows::{ONE, ONE_REPORT, REPORTS, THREE, THREE_REPORTS};
use crate::runs::{owned, run_on};
use flow_io::{MemInputs, MemOutput, Status};
use flowcheck_cli::flowcheck;
use std::alloc::{AllocError, Global};
use std::test::Fail;

/// The names of the two inputs.
pub const NAMES: [&str; 2] = ["x.graph", "x.report"];

/// The room of an output that holds every line of a trial.
const ROOM: usize = 4096;

/// A graph of nine edges, and its report with safe runs.
const WAGONS: &str =
    "# wagons\n7\nmine yard 55\nyard j1 40\nj1 port 40\nyard j2 24\nj2 mill 15\nquarry yard 9\nj2 port 9\nquarry j1 6\nj1 mill 6\n";

const WAGONS_REPORT: &str =
    "graph 1 wagons\nmodel exact\nmark optimal\nlower 4\nupper 4\npath 40 mine yard j1 port\npath 15 mine yard j2 mill\npath 9 quarry yard j2 port\npath 6 quarry j1 mill\ncert wide 4\nedge yard j1\nedge j2 mill\nedge j2 port\nedge quarry j1\nsafe 6\nrun mine yard j1 port\nrun mine yard j2 mill\nrun yard j2 port\nrun quarry yard\nrun quarry j1\nrun j1 mill\nend\n";

/// Graphs, texts of reports, and the lines and the status that they come to.
const CHECKS: [(&str, &str, &str, Status); 16] = [
    ("", "", "", Status::Clean),
    (ONE, ONE_REPORT, "graph 1 yes\n", Status::Clean),
    (WAGONS, WAGONS_REPORT, "graph 1 yes\n", Status::Clean),
    (
        THREE,
        THREE_REPORTS,
        "graph 1 yes\ngraph 2 yes\ngraph 3 yes\n",
        Status::Clean,
    ),
    (
        ONE,
        "graph 1 one\nmodel exact\nmark optimal\nlower 1\nupper 1\npath 4 s t\ncert wide 1\nedge s t\nend\n",
        "graph 1 no 5\n",
        Status::Partial,
    ),
    (
        ONE,
        "graph 1 one\nmodel exact\nmark optimal\nlower 1\nupper 2\npath 5 s t\ncert wide 1\nedge s t\nend\n",
        "graph 1 no 3\n",
        Status::Partial,
    ),
    (
        ONE,
        "graph 2 one\nmodel exact\nmark optimal\nlower 1\nupper 1\npath 5 s t\ncert wide 1\nedge s t\nend\n",
        "graph 1 no 1\n",
        Status::Partial,
    ),
    (
        ONE,
        "graph 1 two\nmodel exact\nmark optimal\nlower 1\nupper 1\npath 5 s t\ncert wide 1\nedge s t\nend\n",
        "graph 1 no 1\n",
        Status::Partial,
    ),
    (
        ONE,
        "graph 1 one\nmodel exact\nrefused 3 BadFields\nend\n",
        "graph 1 no 3\n",
        Status::Partial,
    ),
    (
        ONE,
        "graph 1 one\nmodel exact\nmark optimal\nlower 1\nupper 1\npath 5 s u\ncert wide 1\nedge s t\nend\n",
        "graph 1 unread 6 BadName\n",
        Status::Refused,
    ),
    (
        ONE,
        "graph 1 one\nmodel exact\nmark optimal\nlower 1\nupper 1\npath 5 s t\ncert wide 1\nedge t s\nend\n",
        "graph 1 unread 8 BadName\n",
        Status::Refused,
    ),
    (
        ONE,
        "graph 1 one\nmodel exact\nmark optimal\n",
        "graph 1 unread 4 NoEnd\n",
        Status::Refused,
    ),
    (ONE, "", "blocks 1 reports 0\n", Status::Refused),
    (
        "# one\n2\ns t 5\n# two\n2\ns t 5\n",
        ONE_REPORT,
        "graph 1 yes\nblocks 2 reports 1\n",
        Status::Refused,
    ),
    (
        ONE,
        "graph 1 one\nmodel exact\nmark optimal\nlower 1\nupper 1\npath 5 s t\ncert wide 1\nedge s t\nend\nend\n",
        "graph 1 yes\nblocks 1 reports 2\n",
        Status::Refused,
    ),
    (
        "# one\n2\ns t 5\n# two\n2\ns t 5\n",
        "graph 1 one\nmodel exact\nmark optimal\nlower 1\nupper 1\npath 5 s t\ncert wide 1\nedge s t\nend\ngraph 2 two\nmodel abs 1\nend\n",
        "graph 1 yes\ngraph 2 unread 12 BadForm\n",
        Status::Refused,
    ),
];

/// What a check answered and wrote.
#[derive(Drop)]
pub struct Checked {
    pub status: Status,
    pub out: MemOutput,
    notes: MemOutput,
}

/// The two inputs, which come in pieces of so many bytes.
pub fn inputs_of(
    alloc: Global,
    graph: &str,
    report: &str,
    chunk: usize,
) -> Result<MemInputs, AllocError> {
    let mut inputs = MemInputs::new(alloc, chunk.max(1));
    inputs.add("x.graph", graph.as_bytes())?;
    inputs.add("x.report", report.as_bytes())?;
    Ok(inputs)
}

/// Runs the checker on these words and inputs.
pub fn check(
    alloc: Global,
    words: &[&str],
    inputs: &mut MemInputs,
    out: MemOutput,
) -> Result<Checked, AllocError> {
    let mut out = out;
    let mut notes = MemOutput::new(alloc, ROOM, ROOM)?;
    let words = owned(alloc, words)?;
    let status = flowcheck(alloc, &words, inputs, &mut out, &mut notes);
    Ok(Checked { status, out, notes })
}

/// A line that says yes for each of so many blocks.
fn yes_lines(alloc: Global, count: usize) -> Result<String, AllocError> {
    let mut lines = String::new(alloc);
    for number in 1..=count {
        lines.push_str(&format!(in alloc; "graph {number} yes\n")?)?;
    }
    Ok(lines)
}

/// Whether the checker says yes, and nothing else, of each report that `flowpaths` writes for this graph.
fn is_answered_yes(alloc: Global, words: &[&str], graph: &str) -> Result<bool, Fail> {
    let ran = run_on(alloc, words, graph, 4096)?;
    let report = str::from_utf8(ran.out.bytes())?;
    let mut inputs = inputs_of(alloc, graph, report, 4096)?;
    let checked = check(
        alloc,
        &NAMES,
        &mut inputs,
        MemOutput::new(alloc, ROOM, ROOM)?,
    )?;
    let count = report.split('\n').filter(|line| *line == "end").count();
    let lines = yes_lines(alloc, count)?;
    Ok(checked.status == Status::Clean && checked.out.bytes() == lines.as_bytes())
}

#[test]
fn own_reports_are_answered_yes(rt: HostRuntime) -> Result<(), Fail> {
    let alloc = rt.alloc();
    for (words, graph, _, _) in REPORTS {
        assert!(rt;
            is_answered_yes(alloc, words, graph)?,
            "the reports of {words:?} on {graph}"
        );
    }
    for free in &FREE {
        assert!(rt;
            is_answered_yes(alloc, free.words, free.input)?,
            "the reports of {:?} on {}",
            free.words,
            free.input
        );
    }
    Ok(())
}

#[test]
fn reports_are_checked(rt: HostRuntime) -> Result<(), Fail> {
    let alloc = rt.alloc();
    for chunk in [4096, 1, 7] {
        for (graph, report, lines, status) in CHECKS {
            let mut inputs = inputs_of(alloc, graph, report, chunk)?;
            let checked = check(
                alloc,
                &NAMES,
                &mut inputs,
                MemOutput::new(alloc, ROOM, ROOM)?,
            )?;
            assert!(rt;
                checked.out.bytes() == lines.as_bytes(),
                "the lines of {report}"
            );
            assert_eq!(rt; checked.status, status, "the status of {report}");
            assert!(rt; checked.notes.bytes().is_empty(), "the notes of {report}");
        }
    }
    Ok(())
}

#[test]
fn reads_of_a_check_fail(rt: HostRuntime) -> Result<(), Fail> {
    let alloc = rt.alloc();
    for call in 0..6u64 {
        let mut inputs = inputs_of(alloc, THREE, THREE_REPORTS, 4096)?;
        inputs.fail_at(call)?;
        let checked = check(
            alloc,
            &NAMES,
            &mut inputs,
            MemOutput::new(alloc, ROOM, ROOM)?,
        )?;
        assert_eq!(rt; checked.status, Status::Fault, "call {call}");
        assert!(rt;
            b"graph 1 yes\ngraph 2 yes\ngraph 3 yes\n"
                .as_slice()
                .starts_with(checked.out.bytes()),
            "call {call}"
        );
        assert!(rt;
            checked.notes.bytes() == "flowcheck: read or write fault\n".as_bytes(),
            "call {call}"
        );
    }
    Ok(())
}

#[test]
fn writes_of_a_check_fail(rt: HostRuntime) -> Result<(), Fail> {
    let alloc = rt.alloc();
    for call in 0..3u64 {
        let mut inputs = inputs_of(alloc, THREE, THREE_REPORTS, 16)?;
        let mut out = MemOutput::new(alloc, 7, ROOM)?;
        out.fail_at(call)?;
        let checked = check(alloc, &NAMES, &mut inputs, out)?;
        assert_eq!(rt; checked.status, Status::Fault, "write {call}");
        assert!(rt;
            b"graph 1 yes\ngraph 2 yes\ngraph 3 yes\n"
                .as_slice()
                .starts_with(checked.out.bytes()),
            "write {call}"
        );
    }
    Ok(())
}

#[test]
fn two_words_are_wanted(rt: HostRuntime) -> Result<(), Fail> {
    let alloc = rt.alloc();
    let refused: [&[&str]; 4] = [
        &[],
        &["x.graph"],
        &["x.graph", "x.graph"],
        &["x.graph", "x.report", "x.graph"],
    ];
    for words in refused {
        let mut inputs = inputs_of(alloc, ONE, ONE_REPORT, 16)?;
        let checked = check(
            alloc,
            words,
            &mut inputs,
            MemOutput::new(alloc, ROOM, ROOM)?,
        )?;
        assert_eq!(rt; checked.status, Status::Words, "{words:?}");
        assert!(rt; checked.out.bytes().is_empty(), "{words:?}");
        assert!(rt;
            checked.notes.bytes() == "usage: flowcheck GRAPH REPORT\n".as_bytes(),
            "{words:?}"
        );
    }
    Ok(())
}
