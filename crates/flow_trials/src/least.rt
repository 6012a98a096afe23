//! Runs of `flowruns`.

use crate::rows::{CHUNKS, ONE, THREE, UNEQUAL};
use crate::runs::{ROOM, Ran, owned};
use flow_io::{MemInputs, MemOutput, Status};
use flowruns_cli::flowruns;
use std::alloc::{AllocError, Global};
use std::test::Fail;

/// What is written for three graphs without runs, of which the second is refused.
const THREE_LEAST: &str = "graph 1 a\nend\ngraph 2 b\nrefused 6 BadFields\nend\ngraph 3 c\nend\n";

/// Inputs, their outputs, and the status.
const LEAST: [(&str, &str, Status); 11] = [
    ("", "", Status::Clean),
    ("# only a comment\n", "", Status::Clean),
    (ONE, "graph 1 one\nend\n", Status::Clean),
    (
        "# diamonds\n#S s a m c\n#S b m c\n7\ns a 5\na m 5\ns b 2\nb m 2\nm c 4\nc t 4\nm d 3\nd t 3\n",
        "graph 1 diamonds\nleast 2 s a m c\npath 3 s a m d t\npath 2 s a m c t\npath 2 s b m c t\nleast 0 b m c\npath 4 s a m c t\npath 2 s b m d t\npath 1 s a m d t\nend\n",
        Status::Clean,
    ),
    // No paths cover both runs, and none is asked to.
    (
        "# crowd\n#S b m c\n#S b m d\n7\ns a 6\na m 6\ns b 1\nb m 1\nm c 4\nc t 4\nm d 3\nd t 3\n",
        "graph 1 crowd\nleast 0 b m c\npath 4 s a m c t\npath 2 s a m d t\npath 1 s b m d t\nleast 0 b m d\npath 3 s a m c t\npath 3 s a m d t\npath 1 s b m c t\nend\n",
        Status::Clean,
    ),
    (
        "# again\n#S s t\n#S  s\tt\n2\ns t 1000000000000\n",
        "graph 1 again\nleast 1000000000000 s t\npath 1000000000000 s t\nend\n",
        Status::Clean,
    ),
    (
        "# z\n#S s t\n2\ns t 0\n",
        "graph 1 z\nleast 0 s t\nend\n",
        Status::Clean,
    ),
    (
        "2\ns t 1\n#S u v\n2\nu v 2\n",
        "graph 1\nend\ngraph 2\nleast 2 u v\npath 2 u v\nend\n",
        Status::Clean,
    ),
    (
        UNEQUAL,
        "graph 1 x\nrefused 3 Unconserved\nend\n",
        Status::Refused,
    ),
    (
        "# x\n#S s t\n#S s u\n2\ns t 1\n",
        "graph 1 x\nrefused 3 UnknownEdge\nend\n",
        Status::Refused,
    ),
    (THREE, THREE_LEAST, Status::Refused),
];

/// Words that are refused.
const REFUSED: [&[&str]; 5] = [&["-x"], &["--"], &["--safe"], &["a", "b"], &["-", "-"]];

/// Runs the top call on these words and inputs.
fn run(
    alloc: Global,
    words: &[&str],
    inputs: &mut MemInputs,
    out: MemOutput,
) -> Result<Ran, AllocError> {
    let mut out = out;
    let mut notes = MemOutput::new(alloc, ROOM, ROOM)?;
    let words = owned(alloc, words)?;
    let status = flowruns(alloc, &words, inputs, &mut out, &mut notes);
    Ok(Ran { status, out, notes })
}

#[test]
fn least_weights_are_written(rt: HostRuntime) -> Result<(), Fail> {
    let alloc = rt.alloc();
    for chunk in CHUNKS {
        for (input, output, status) in LEAST {
            let mut inputs = MemInputs::new(alloc, chunk);
            inputs.add("-", input.as_bytes())?;
            let ran = run(alloc, &[], &mut inputs, MemOutput::new(alloc, chunk, ROOM)?)?;
            assert_eq!(rt; ran.status, status, "the status on {input}");
            assert!(rt;
                ran.out.bytes() == output.as_bytes(),
                "the output on {input} in pieces of {chunk}"
            );
            assert!(rt; ran.notes.bytes().is_empty(), "the notes on {input}");
        }
    }
    Ok(())
}

#[test]
fn a_named_input_is_read(rt: HostRuntime) -> Result<(), Fail> {
    let alloc = rt.alloc();
    let mut inputs = MemInputs::new(alloc, 16);
    inputs.add("-", b"")?;
    inputs.add("one.graph", ONE.as_bytes())?;
    let out = MemOutput::new(alloc, ROOM, ROOM)?;
    let ran = run(alloc, &["one.graph"], &mut inputs, out)?;
    assert_eq!(rt; ran.status, Status::Clean);
    assert!(rt; ran.out.bytes() == b"graph 1 one\nend\n".as_slice());
    Ok(())
}

#[test]
fn words_of_flowruns_that_name_no_input_are_refused(rt: HostRuntime) -> Result<(), Fail> {
    let alloc = rt.alloc();
    for words in REFUSED {
        let mut inputs = MemInputs::new(alloc, ROOM);
        inputs.add("-", ONE.as_bytes())?;
        let out = MemOutput::new(alloc, ROOM, ROOM)?;
        let ran = run(alloc, words, &mut inputs, out)?;
        assert_eq!(rt; ran.status, Status::Words, "{words:?}");
        assert!(rt; ran.out.bytes().is_empty(), "{words:?}");
        assert!(rt;
            ran.notes.bytes() == b"usage: flowruns [FILE]\n".as_slice(),
            "{words:?}"
        );
    }
    Ok(())
}

/// Whether a run ended with a fault, with its note, behind a beginning of the output on three graphs.
fn is_cut(ran: &Ran) -> bool {
    ran.status == Status::Fault
        && THREE_LEAST.as_bytes().starts_with(ran.out.bytes())
        && ran.notes.bytes() == b"flowruns: read or write fault\n".as_slice()
}

#[test]
fn reads_of_flowruns_fail(rt: HostRuntime) -> Result<(), Fail> {
    let alloc = rt.alloc();
    for call in 0..5u64 {
        let mut inputs = MemInputs::new(alloc, 16);
        inputs.add("-", THREE.as_bytes())?;
        inputs.fail_at(call)?;
        let ran = run(alloc, &[], &mut inputs, MemOutput::new(alloc, 16, ROOM)?)?;
        assert!(rt; is_cut(&ran), "call {call}");
    }
    Ok(())
}

#[test]
fn writes_of_flowruns_fail(rt: HostRuntime) -> Result<(), Fail> {
    let alloc = rt.alloc();
    for call in 0..9u64 {
        let mut inputs = MemInputs::new(alloc, 16);
        inputs.add("-", THREE.as_bytes())?;
        let mut out = MemOutput::new(alloc, 7, ROOM)?;
        out.fail_at(call)?;
        let ran = run(alloc, &[], &mut inputs, out)?;
        assert!(rt; is_cut(&ran), "write {call}");
    }
    Ok(())
}
