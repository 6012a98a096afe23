//! Runs whose whole output is given.

use crate::runs::{ROOM, run, run_on};
use flow_io::{MemInputs, MemOutput, Status};
use std::test::Fail;

/// Pieces of an input: as it comes, and cut within line ends, `#` and numbers.
pub const CHUNKS: [usize; 4] = [4096, 1, 2, 7];

/// A graph of one edge, and the report on it.
pub const ONE: &str = "# one\n2\ns t 5\n";

pub const ONE_REPORT: &str =
    "graph 1 one\nmodel exact\nmark optimal\nlower 1\nupper 1\npath 5 s t\ncert wide 1\nedge s t\nend\n";

/// Three graphs, of which the second is refused, and a last comment.
pub const THREE: &str = "# a\n2\ns t 1\n# b\n2\ns t\n# c\n2\ns t 3\n# bye\n";

/// The reports on them.
pub const THREE_REPORTS: &str =
    "graph 1 a\nmodel exact\nmark optimal\nlower 1\nupper 1\npath 1 s t\ncert wide 1\nedge s t\nend\ngraph 2 b\nmodel exact\nrefused 6 BadFields\nend\ngraph 3 c\nmodel exact\nmark optimal\nlower 1\nupper 1\npath 3 s t\ncert wide 1\nedge s t\nend\n";

/// Two edges that differ.
pub const UNEQUAL: &str = "# x\n3\ns a 3\na t 5\n";

/// Words, inputs, their outputs and their statuses.
pub const REPORTS: [(&[&str], &str, &str, Status); 19] = [
    (&[], ONE, ONE_REPORT, Status::Clean),
    (&[], "", "", Status::Clean),
    (&[], "# only a comment\n", "", Status::Clean),
    (&[], "# only a comment", "", Status::Clean),
    (&[], "\n \r\n# only\n# comments\n", "", Status::Clean),
    (
        &[],
        "# n\r\n\r\n99\r\ns t 10.0",
        "graph 1 n\nmodel exact\nmark optimal\nlower 1\nupper 1\npath 10 s t\ncert wide 1\nedge s t\nend\n",
        Status::Clean,
    ),
    (
        &[],
        "2\ns t 007\n",
        "graph 1\nmodel exact\nmark optimal\nlower 1\nupper 1\npath 7 s t\ncert wide 1\nedge s t\nend\n",
        Status::Clean,
    ),
    (
        &[],
        "# b\n2\ns t 1000000000000\n",
        "graph 1 b\nmodel exact\nmark optimal\nlower 1\nupper 1\npath 1000000000000 s t\ncert wide 1\nedge s t\nend\n",
        Status::Clean,
    ),
    (
        &[],
        "# e\n0\n",
        "graph 1 e\nmodel exact\nmark optimal\nlower 0\nupper 0\ncert none\nend\n",
        Status::Clean,
    ),
    (
        &[],
        "# z\n2\ns t 0\n",
        "graph 1 z\nmodel exact\nmark optimal\nlower 0\nupper 0\ncert none\nend\n",
        Status::Clean,
    ),
    (
        &["--safe"],
        "# z\n2\ns t 0\n",
        "graph 1 z\nmodel exact\nmark optimal\nlower 0\nupper 0\ncert none\nsafe 0\nend\n",
        Status::Clean,
    ),
    (&[], THREE, THREE_REPORTS, Status::Refused),
    (
        &[],
        "# two\n#S s\n2\ns t 1\n",
        "graph 1 two\nmodel exact\nrefused 2 ShortConstraint\nend\n",
        Status::Refused,
    ),
    (
        &[],
        "# diamonds\n#S b m c\n#S b m d\n7\ns a 6\na m 6\ns b 1\nb m 1\nm c 4\nc t 4\nm d 3\nd t 3\n",
        "graph 1 diamonds\nmodel exact\nmark infeasible\nlower none\nupper none\ncert crowd b m 2\nrule 1\nrule 2\nend\n",
        Status::Clean,
    ),
    (
        &["--model", "interval"],
        "# i\n3\ns a 5 5\na t 1 2\n",
        "graph 1 i\nmodel interval\nmark infeasible\nlower none\nupper none\ncert cut in 1\nvertex a\nend\n",
        Status::Clean,
    ),
    (
        &["--model=interval"],
        "# x\n2\ns t 5 4\n",
        "graph 1 x\nmodel interval\nrefused 3 BadRange\nend\n",
        Status::Refused,
    ),
    (
        &["--model", "abs", "--paths", "0"],
        UNEQUAL,
        "graph 1 x\nmodel abs 0\nmark optimal\nlower 8\nupper 8\ncert tree 0 7 1\ngap\nend\n",
        Status::Clean,
    ),
    (
        &["--model", "abs", "--paths", "0"],
        "# x\n#S s a\n3\ns a 3\na t 5\n",
        "graph 1 x\nmodel abs 0\nmark infeasible\nlower none\nupper none\ncert tree 0 none 1\nmiss 1\nend\n",
        Status::Clean,
    ),
    (
        &["--model", "abs", "--paths", "1", "--nodes", "1"],
        UNEQUAL,
        "graph 1 x\nmodel abs 1\nmark bounds\nlower 0\nupper 2\npath 3 s a t\ncert none\ntrail 1 1 1\nstep 1\nend\n",
        Status::Partial,
    ),
];

/// Words that name an input.
const NAMES: [&[&str]; 4] = [
    &["one.graph"],
    &["--", "one.graph"],
    &["one.graph", "--"],
    &["--", "-x"],
];

/// Words that are refused.
const REFUSED: [&[&str]; 10] = [
    &["--model", "abs"],
    &["--paths", "2"],
    &["--model", "abs", "--paths", "65"],
    &["--nodes", "0"],
    &["--model", "flow"],
    &["--model", "interval", "--safe"],
    &["--demo", "1", "x.graph"],
    &["--colour"],
    &["-x"],
    &["a", "b"],
];

/// What is written where words are refused.
const USAGE: &str =
    "usage: flowpaths [--model exact|interval|abs] [--paths K] [--nodes N] [--safe] [--demo SEED] [FILE]\n";

#[test]
fn reports(rt: HostRuntime) -> Result<(), Fail> {
    let alloc = rt.alloc();
    for chunk in CHUNKS {
        for (words, input, output, status) in REPORTS {
            let ran = run_on(alloc, words, input, chunk)?;
            assert!(rt;
                ran.out.bytes() == output.as_bytes(),
                "the output of {words:?} on {input} in pieces of {chunk}"
            );
            assert_eq!(rt; ran.status, status, "the status of {words:?} on {input}");
            assert!(rt;
                ran.notes.bytes().is_empty(),
                "the notes of {words:?} on {input}"
            );
        }
    }
    Ok(())
}

/// Standard input holds nothing here.
#[test]
fn named_inputs_are_read(rt: HostRuntime) -> Result<(), Fail> {
    let alloc = rt.alloc();
    for words in NAMES {
        let mut inputs = MemInputs::new(alloc, 16);
        inputs.add("-", b"")?;
        inputs.add("one.graph", ONE.as_bytes())?;
        inputs.add("-x", ONE.as_bytes())?;
        let ran = run(alloc, words, &mut inputs, MemOutput::new(alloc, 16, ROOM)?)?;
        assert_eq!(rt; ran.status, Status::Clean, "{words:?}");
        assert!(rt; ran.out.bytes() == ONE_REPORT.as_bytes(), "{words:?}");
        assert!(rt; ran.notes.bytes().is_empty(), "{words:?}");
    }
    Ok(())
}

/// The first call of these inputs fails, so a run that selects one of them ends with a fault.
#[test]
fn the_usage_is_told(rt: HostRuntime) -> Result<(), Fail> {
    let alloc = rt.alloc();
    for words in REFUSED {
        let mut inputs = MemInputs::new(alloc, 16);
        inputs.fail_at(0)?;
        let ran = run(alloc, words, &mut inputs, MemOutput::new(alloc, 16, ROOM)?)?;
        assert_eq!(rt; ran.status, Status::Words, "{words:?}");
        assert!(rt; ran.out.bytes().is_empty(), "{words:?}");
        assert!(rt; ran.notes.bytes() == USAGE.as_bytes(), "{words:?}");
    }
    Ok(())
}
