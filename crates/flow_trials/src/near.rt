//! Runs of `flownear`.

use crate::rows::{CHUNKS, ONE, THREE, UNEQUAL};
use crate::runs::{ROOM, owned};
use flow_io::{MemInputs, MemOutput, Status};
use flownear_cli::flownear;
use std::test::Fail;

/// Two paths of 1 that join in an edge of 5.
const MERGED: &str = "# y\n5\ns a 1\ns b 1\na c 1\nb c 1\nc t 5\n";

/// Inputs, the outputs that may be written for them, and the status.
const NEAR: [(&str, &[&str], Status); 6] = [
    ("", &[""], Status::Clean),
    ("# only a comment\n", &[""], Status::Clean),
    (
        ONE,
        &["graph 1 one\nchange 0\nflow s t 5\nend\n"],
        Status::Clean,
    ),
    (
        UNEQUAL,
        &[
            "graph 1 x\nchange 2\nflow s a 3\nflow a t 3\nlevel a -1\nend\n",
            "graph 1 x\nchange 2\nflow s a 4\nflow a t 4\nlevel a -1\nend\n",
            "graph 1 x\nchange 2\nflow s a 5\nflow a t 5\nlevel a -1\nend\n",
        ],
        Status::Clean,
    ),
    (
        MERGED,
        &[
            "graph 1 y\nchange 3\nflow s a 1\nflow s b 1\nflow a c 1\nflow b c 1\nflow c t 2\nlevel c -1\nend\n",
            "graph 1 y\nchange 3\nflow s a 1\nflow s b 1\nflow a c 1\nflow b c 1\nflow c t 2\nlevel a -1\nlevel c -1\nend\n",
            "graph 1 y\nchange 3\nflow s a 1\nflow s b 1\nflow a c 1\nflow b c 1\nflow c t 2\nlevel b -1\nlevel c -1\nend\n",
            "graph 1 y\nchange 3\nflow s a 1\nflow s b 1\nflow a c 1\nflow b c 1\nflow c t 2\nlevel a -1\nlevel b -1\nlevel c -1\nend\n",
        ],
        Status::Clean,
    ),
    (
        THREE,
        &[
            "graph 1 a\nchange 0\nflow s t 1\nend\ngraph 2 b\nrefused 6 BadFields\nend\ngraph 3 c\nchange 0\nflow s t 3\nend\n",
        ],
        Status::Refused,
    ),
];

/// Words that are refused.
const REFUSED: [&[&str]; 4] = [&["-x"], &["--"], &["a", "b"], &["-", "-"]];

#[test]
fn nearest_flows_are_written(rt: HostRuntime) -> Result<(), Fail> {
    let alloc = rt.alloc();
    for chunk in CHUNKS {
        for (input, outputs, status) in NEAR {
            let mut inputs = MemInputs::new(alloc, chunk);
            inputs.add("-", input.as_bytes())?;
            let mut out = MemOutput::new(alloc, chunk, ROOM)?;
            let mut notes = MemOutput::new(alloc, ROOM, ROOM)?;
            let words = owned(alloc, &[])?;
            let answered = flownear(alloc, &words, &mut inputs, &mut out, &mut notes);
            assert_eq!(rt; answered, status, "the status on {input}");
            assert!(rt;
                outputs
                    .iter()
                    .any(|output| out.bytes() == output.as_bytes()),
                "the output on {input} in pieces of {chunk}"
            );
            assert!(rt; notes.bytes().is_empty(), "the notes on {input}");
        }
    }
    Ok(())
}

#[test]
fn words_of_flownear_that_name_no_input_are_refused(rt: HostRuntime) -> Result<(), Fail> {
    let alloc = rt.alloc();
    for words in REFUSED {
        let mut inputs = MemInputs::new(alloc, ROOM);
        inputs.add("-", ONE.as_bytes())?;
        let mut out = MemOutput::new(alloc, ROOM, ROOM)?;
        let mut notes = MemOutput::new(alloc, ROOM, ROOM)?;
        let given = owned(alloc, words)?;
        let answered = flownear(alloc, &given, &mut inputs, &mut out, &mut notes);
        assert_eq!(rt; answered, Status::Words, "{words:?}");
        assert!(rt; out.bytes().is_empty(), "{words:?}");
        assert!(rt;
            notes.bytes() == b"usage: flownear [FILE]\n".as_slice(),
            "{words:?}"
        );
    }
    Ok(())
}
