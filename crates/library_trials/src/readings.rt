//! Texts of reports that are read back, and the first bad line of others.

use crate::blocks::labels_of;
use flow_io::MemOutput;
use graph_text::Labels;
use path_report::write_report;
use report_reading::ReadWhy::{BadForm, BadName, BadNumber, BadOrder, NoEnd};
use report_reading::{ReadFault, ReadWhy, read_report};
use std::alloc::Global;
use std::test::Fail;

/// A graph of one edge, and the lines of the report on it.
const ONE: &str = "# one\n2\ns t 5\n";

const ROW: &str =
    "graph 1 one\nmodel exact\nmark optimal\nlower 1\nupper 1\npath 5 s t\ncert wide 1\nedge s t\nend\n";

/// A graph of two sides, and the first lines of reports on it.
const SIDES: &str = "# two\n4\ns a 3\ns b 2\na t 3\nb t 2\n";

const FOUND: &str =
    "graph 2\nmodel exact\nmark optimal\nlower 2\nupper 2\npath 3 s a t\npath 2 s b t\n";

const OPEN: &str = "graph 2\nmodel abs 64\nmark bounds\nlower 0\nupper none\n";

/// The line and the cause of the refusal of a text, if it is refused.
fn refusal(alloc: Global, labels: &Labels, text: &str) -> Option<(u64, ReadWhy)> {
    match read_report(alloc, text.as_bytes(), labels) {
        Err(ReadFault::Refused(refusal)) => Some((refusal.line, refusal.why)),
        _ => None,
    }
}

/// The lines up to the bounds of a report on the one edge.
const HEAD: &str = "graph 1 one\nmodel exact\nmark optimal\nlower 1\nupper 1\n";

/// Texts for the one edge, the line that is named, and why it is bad.
const BAD: [(&str, &str, u64, ReadWhy); 42] = [
    ("", "", 1, NoEnd),
    ("", "graph 1 one", 1, NoEnd),
    ("", "graph 1 \n", 1, BadForm),
    ("", "graph  1\n", 1, BadForm),
    ("", "graph 1\tx\n", 1, BadForm),
    ("", "graph 1  x\n", 1, BadForm),
    ("", "graph 1 x\t\n", 1, BadForm),
    ("", "graph 0 x\n", 1, BadNumber),
    ("", "graph 18446744073709551616\n", 1, BadNumber),
    ("", "graph 1\nmodel abs 65\n", 2, BadNumber),
    ("", "graph 1\nmodel abs 064\n", 2, BadNumber),
    ("", "graph 1\nmodel\texact\n", 2, BadForm),
    ("", "graph 1\nmodel exact\r\n", 2, BadForm),
    ("", "graph 1\nmodel exact\nrefused 0 Foo\n", 3, BadForm),
    ("", "graph 1\nmodel exact\nrefused 0 Cycle\n", 3, BadNumber),
    ("", "graph 1\nmodel exact\nrefused 3 Cycle\n", 4, NoEnd),
    (HEAD, "path 5 s t\ncert wide 1\nedge s t\n", 9, NoEnd),
    (HEAD, "path 5 s t\ncert wide 1\nedge s t\nend", 9, NoEnd),
    (
        HEAD,
        "path 5 s t\ncert wide 1\nedge s t\nend\nend\n",
        10,
        BadForm,
    ),
    (
        HEAD,
        "path 5 s t\ncert wide 1\nedge s t\nend\nx",
        10,
        BadForm,
    ),
    (HEAD, "path 05 s t\n", 6, BadNumber),
    (HEAD, "path 0 q q\n", 6, BadNumber),
    (HEAD, "path 04 s\n", 6, BadForm),
    (HEAD, "path 4 s  t\n", 6, BadForm),
    (HEAD, "path 5 s q\n", 6, BadName),
    (HEAD, "path 5 t s\n", 6, BadName),
    (HEAD, "path 5 s t\npath 5 s t\n", 7, BadOrder),
    (HEAD, "path 5 s t\npath 6 s t\n", 7, BadOrder),
    (HEAD, "path 5 s t\ncert wide 1\nedge t s\nend\n", 8, BadName),
    (HEAD, "path 5 s t\ncert wide 9\nedge s t\nend\n", 9, BadForm),
    (
        HEAD,
        "path 5 s t\ncert wide 2\nedge s t\nedge s t\n",
        9,
        BadOrder,
    ),
    (HEAD, "cert crowd q q x\n", 6, BadNumber),
    (HEAD, "cert crowd q q 1\n", 6, BadName),
    (HEAD, "cert crowd s t 1\nrule 0\n", 7, BadNumber),
    (HEAD, "cert crowd s t 2\nrule 2\nrule 1\n", 8, BadOrder),
    (HEAD, "cert cut in 1\nvertex q\n", 7, BadName),
    (HEAD, "cert tree 4294967296 0 0\n", 6, BadNumber),
    (HEAD, "cert tree 1 0 1\nmiss 4294967296\n", 7, BadNumber),
    (HEAD, "cert none\ntrail 0 0 0\n", 7, BadForm),
    (HEAD, "cert none\nsafe 1\nrun s\n", 8, BadForm),
    (HEAD, "cert none\nsafe 2\nrun s t\nrun s t\n", 9, BadOrder),
    (
        "",
        "graph 1\nmodel exact\nmark bounds\nlower 0\nupper 1\ncert none\nsafe 0\n",
        7,
        BadForm,
    ),
];

#[test]
fn the_first_bad_line_is_named(rt: HostRuntime) -> Result<(), Fail> {
    let alloc = rt.alloc();
    let labels = labels_of(alloc, ONE)?;
    for (head, rest, line, why) in BAD {
        let text = format!(in alloc; "{head}{rest}")?;
        assert_eq!(rt;
            refusal(alloc, &labels, text.as_str()),
            Some((line, why)),
            "{text}"
        );
    }
    Ok(())
}

/// Texts of reports: the graph of their labels, and how they begin and end.
const RIGHT: [(&str, &str, &str); 12] = [
    (ONE, ROW, ""),
    ("", "graph 1 x\nmodel exact\nrefused 3 Cycle\nend\n", ""),
    (
        "",
        "graph 18446744073709551615 a\tb  c\nmodel interval\nrefused 18446744073709551615 LongLine\nend\n",
        "",
    ),
    (SIDES, FOUND, "cert wide 2\nedge s a\nedge s b\nend\n"),
    (
        SIDES,
        FOUND,
        "cert tree 0 none 2\ngap\nmiss 4294967295\nend\n",
    ),
    (
        SIDES,
        FOUND,
        "cert none\nsafe 2\nrun s a t\nrun s b t\nend\n",
    ),
    (SIDES, FOUND, "cert none\nsafe 0\nend\n"),
    (SIDES, FOUND, "cert cut in 2\nvertex a\nvertex b\nend\n"),
    (SIDES, FOUND, "cert cut out 0\nend\n"),
    (SIDES, FOUND, "cert crowd a t 2\nrule 1\nrule 10\nend\n"),
    (
        SIDES,
        OPEN,
        "cert none\ntrail 4294967295 0 2\nstep 1\nsplit 2\nend\n",
    ),
    (
        SIDES,
        OPEN,
        "path 3 s a t\npath 3 s b t\ncert none\ntrail 0 none 0\nsafe 1\nrun s a\nend\n",
    ),
];

#[test]
fn texts_are_read_back(rt: HostRuntime) -> Result<(), Fail> {
    let alloc = rt.alloc();
    for (graph, begin, rest) in RIGHT {
        let labels = labels_of(alloc, graph)?;
        let text = format!(in alloc; "{begin}{rest}")?;
        match read_report(alloc, text.as_bytes(), &labels) {
            Ok(report) => {
                let mut out = MemOutput::new(alloc, 64, 512)?;
                let written = write_report(&mut out, &report, &labels);
                assert!(rt; written.is_ok() && out.bytes() == text.as_bytes(), "{text}");
            }
            Err(fault) => assert!(rt; false, "{text}: {fault:?}"),
        }
    }
    Ok(())
}
