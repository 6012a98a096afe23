//! Runs of whose output a part is free: all choices of it are given, and of a refutation the forms of its lines.

use crate::rows::{CHUNKS, UNEQUAL};
use crate::runs::run_on;
use flow_io::Status;
use std::test::Fail;

/// A run and its output: a beginning, one of some choices, where there are forms of lines a number and as many lines of these forms,
/// and the rest.
#[derive(Clone, Copy)]
pub struct Free<'a> {
    pub words: &'a [&'a str],
    pub input: &'a str,
    pub status: Status,
    pub begin: &'a str,
    pub choices: &'a [&'a str],
    pub forms: &'a [&'a str],
    pub rest: &'a str,
}

/// A graph whose width is less than its fewest paths.
const DIAMONDS: &str = "# diamonds\n7\ns a 5\na m 5\ns b 2\nb m 2\nm c 4\nc t 4\nm d 3\nd t 3\n";

/// The report on it up to the number of tokens.
const THREE_PATHS: &str =
    "graph 1 diamonds\nmodel exact\nmark optimal\nlower 3\nupper 3\npath 4 s a m c t\npath 2 s b m d t\npath 1 s a m d t\ncert tree 2 0 ";

/// Tokens for two slots without a rule.
const TWO_SLOTS: [&str; 5] = ["gap", "split 1", "split 2", "step 1", "step 2"];

/// A graph of nine edges, its report up to the edges of the certificate, and the two choices of these.
const WAGONS: &str =
    "# wagons\n7\nmine yard 55\nyard j1 40\nj1 port 40\nyard j2 24\nj2 mill 15\nquarry yard 9\nj2 port 9\nquarry j1 6\nj1 mill 6\n";

const FOUR_PATHS: &str =
    "graph 1 wagons\nmodel exact\nmark optimal\nlower 4\nupper 4\npath 40 mine yard j1 port\npath 15 mine yard j2 mill\npath 9 quarry yard j2 port\npath 6 quarry j1 mill\ncert wide 4\n";

const FOUR_APART: [&str; 2] = [
    "edge yard j1\nedge j2 mill\nedge j2 port\nedge quarry j1\n",
    "edge j1 port\nedge j2 mill\nedge j2 port\nedge j1 mill\n",
];

/// Two runs that book an edge of one unit, and room for both by another one.
const OVER: &str = "# over\n#S m c\n#S m d\n5\np m 1\nq m 1\nm c 1\nm d 1\n";

/// The runs.
pub const FREE: [Free; 13] = [
    Free {
        words: &[],
        input: "# two\n4\ns a 3\ns b 2\na t 3\nb t 2\n",
        status: Status::Clean,
        begin: "graph 1 two\nmodel exact\nmark optimal\nlower 2\nupper 2\npath 3 s a t\npath 2 s b t\ncert wide 2\n",
        choices: &[
            "edge s a\nedge s b\n",
            "edge s a\nedge b t\n",
            "edge s b\nedge a t\n",
            "edge a t\nedge b t\n",
        ],
        forms: &[],
        rest: "end\n",
    },
    Free {
        words: &[],
        input: DIAMONDS,
        status: Status::Clean,
        begin: THREE_PATHS,
        choices: &[""],
        forms: &TWO_SLOTS,
        rest: "end\n",
    },
    Free {
        words: &["--safe"],
        input: DIAMONDS,
        status: Status::Clean,
        begin: THREE_PATHS,
        choices: &[""],
        forms: &TWO_SLOTS,
        rest: "safe 3\nrun s a m c t\nrun s a m d t\nrun s b m\nend\n",
    },
    // The rule list refutes two paths in 49 tokens: a shorter refutation is found where it is spent.
    Free {
        words: &["--nodes", "48"],
        input: DIAMONDS,
        status: Status::Clean,
        begin: THREE_PATHS,
        choices: &[""],
        forms: &TWO_SLOTS,
        rest: "end\n",
    },
    Free {
        words: &["--nodes", "1"],
        input: DIAMONDS,
        status: Status::Partial,
        begin: "graph 1 diamonds\nmodel exact\nmark bounds\nlower 2\nupper 3\npath 4 s a m c t\npath 2 s b m d t\npath 1 s a m d t\ncert wide 2\n",
        choices: &[
            "edge s a\nedge s b\n",
            "edge s a\nedge b m\n",
            "edge a m\nedge s b\n",
            "edge a m\nedge b m\n",
            "edge m c\nedge m d\n",
            "edge m c\nedge d t\n",
            "edge c t\nedge m d\n",
            "edge c t\nedge d t\n",
        ],
        forms: &[],
        rest: "trail 2 0 1\nstep 1\nend\n",
    },
    Free {
        words: &[],
        input: "# diamonds\n#S b m c\n#S b m d\n#S b m c\n7\ns a 5\na m 5\ns b 2\nb m 2\nm c 4\nc t 4\nm d 3\nd t 3\n",
        status: Status::Clean,
        begin: "graph 1 diamonds\nmodel exact\nmark optimal\nlower 4\nupper 4\npath 3 s a m c t\npath 2 s a m d t\npath 1 s b m c t\npath 1 s b m d t\ncert tree 3 0 ",
        choices: &[""],
        forms: &[
            "gap", "miss 1", "miss 2", "split 1", "split 2", "split 3", "step 1", "step 2",
            "step 3",
        ],
        rest: "end\n",
    },
    Free {
        words: &["--model", "abs", "--paths", "1"],
        input: UNEQUAL,
        status: Status::Clean,
        begin: "graph 1 x\nmodel abs 1\nmark optimal\nlower 2\nupper 2\npath ",
        choices: &[
            "3 s a t\ncert tree 1 1 ",
            "4 s a t\ncert tree 1 1 ",
            "5 s a t\ncert tree 1 1 ",
        ],
        forms: &["gap", "split 1", "step 1"],
        rest: "end\n",
    },
    // The rule list refutes an error of 1 in 9 tokens.
    Free {
        words: &["--model", "abs", "--paths", "1", "--nodes", "8"],
        input: UNEQUAL,
        status: Status::Clean,
        begin: "graph 1 x\nmodel abs 1\nmark optimal\nlower 2\nupper 2\npath ",
        choices: &[
            "3 s a t\ncert tree 1 1 ",
            "4 s a t\ncert tree 1 1 ",
            "5 s a t\ncert tree 1 1 ",
        ],
        forms: &["gap", "split 1", "step 1"],
        rest: "end\n",
    },
    Free {
        words: &["--model", "interval"],
        input: "# i\n3\ns a 1 3\na t 2 4\n",
        status: Status::Clean,
        begin: "graph 1 i\nmodel interval\nmark optimal\nlower 1\nupper 1\npath ",
        choices: &[
            "2 s a t\ncert wide 1\nedge s a\n",
            "2 s a t\ncert wide 1\nedge a t\n",
            "3 s a t\ncert wide 1\nedge s a\n",
            "3 s a t\ncert wide 1\nedge a t\n",
        ],
        forms: &[],
        rest: "end\n",
    },
    Free {
        words: &["--safe"],
        input: WAGONS,
        status: Status::Clean,
        begin: FOUR_PATHS,
        choices: &FOUR_APART,
        forms: &[],
        rest: "safe 6\nrun mine yard j1 port\nrun mine yard j2 mill\nrun yard j2 port\nrun quarry yard\nrun quarry j1\nrun j1 mill\nend\n",
    },
    Free {
        words: &[],
        input: OVER,
        status: Status::Clean,
        begin: "graph 1 over\nmodel exact\nmark optimal\nlower 2\nupper 2\npath 1 p m ",
        choices: &[
            "c\npath 1 q m d\ncert wide 2\nedge p m\nedge q m\n",
            "c\npath 1 q m d\ncert wide 2\nedge m c\nedge m d\n",
            "d\npath 1 q m c\ncert wide 2\nedge p m\nedge q m\n",
            "d\npath 1 q m c\ncert wide 2\nedge m c\nedge m d\n",
        ],
        forms: &[],
        rest: "end\n",
    },
    Free {
        words: &["--nodes=1"],
        input: OVER,
        status: Status::Partial,
        begin: "graph 1 over\nmodel exact\nmark bounds\nlower 2\nupper none\ncert wide 2\n",
        choices: &["edge p m\nedge q m\n", "edge m c\nedge m d\n"],
        forms: &[],
        rest: "trail 6 0 1\nstep 1\nend\n",
    },
    Free {
        words: &["--model=interval"],
        input: "# r\n#S s a\n3\ns a 0 9\na t 0 0\n",
        status: Status::Clean,
        begin: "graph 1 r\nmodel interval\nmark infeasible\nlower none\nupper none\ncert tree 3 0 ",
        choices: &[""],
        forms: &[
            "gap", "miss 1", "split 1", "split 2", "split 3", "step 1", "step 2", "step 3",
        ],
        rest: "end\n",
    },
];

/// Whether the text is a number, as many lines of these forms, and then the rest.
fn are_lines(forms: &[&str], rest: &str, text: &str) -> bool {
    let Some((count, text)) = text.split_once('\n') else {
        return false;
    };
    let Ok(count) = count.parse::<usize>() else {
        return false;
    };
    let mut lines = text;
    for _ in 0..count {
        let Some((line, more)) = lines.split_once('\n') else {
            return false;
        };
        if !forms.iter().any(|form| *form == line) {
            return false;
        }
        lines = more;
    }
    lines == rest
}

/// Whether the text is an output of the run.
fn is_output(run: &Free, text: &str) -> bool {
    let Some(text) = text.strip_prefix(run.begin) else {
        return false;
    };
    for choice in run.choices {
        if let Some(text) = text.strip_prefix(choice) {
            return if run.forms.is_empty() {
                text == run.rest
            } else {
                are_lines(run.forms, run.rest, text)
            };
        }
    }
    false
}

#[test]
fn outputs_but_for_what_is_free(rt: HostRuntime) -> Result<(), Fail> {
    let alloc = rt.alloc();
    for chunk in CHUNKS {
        for free in &FREE {
            let ran = run_on(alloc, free.words, free.input, chunk)?;
            let text = str::from_utf8(ran.out.bytes())?;
            assert!(rt; is_output(free, text), "in pieces of {chunk}: {text}");
            assert_eq!(rt; ran.status, free.status, "{text}");
            assert!(rt; ran.notes.bytes().is_empty(), "{text}");
        }
    }
    Ok(())
}
