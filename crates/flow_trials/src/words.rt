//! The words of the command line, and what they give.

use crate::runs::owned;
use dag_net::Mode;
use flowpaths_cli::{Settings, WordFault};
use std::test::Fail;

/// Words that are taken, the most tokens of a search that they give, whether safe runs are listed, and the name of the input.
const TAKEN: [(&[&str], u32, bool, &str); 30] = [
    (&[], 20_000, false, "-"),
    (&["x.graph"], 20_000, false, "x.graph"),
    (&["-"], 20_000, false, "-"),
    (&["--"], 20_000, false, "-"),
    (&["--", "-x"], 20_000, false, "-x"),
    (&["--", "--"], 20_000, false, "--"),
    (&["x", "--"], 20_000, false, "x"),
    (&["--", "-"], 20_000, false, "-"),
    (&[""], 20_000, false, ""),
    (&["--", ""], 20_000, false, ""),
    (&["a=b"], 20_000, false, "a=b"),
    (&["--nodes", "7"], 7, false, "-"),
    (&["--nodes=7"], 7, false, "-"),
    (&["--nodes", "1", "x"], 1, false, "x"),
    (&["x", "--nodes", "1000000"], 1_000_000, false, "x"),
    (&["--nodes=0000000007", "x"], 7, false, "x"),
    (&["--nodes", "7", "--", "--nodes"], 7, false, "--nodes"),
    (&["--", "--nodes=7"], 20_000, false, "--nodes=7"),
    (&["--nodes", "7", "-"], 7, false, "-"),
    (&["nodes=7"], 20_000, false, "nodes=7"),
    (&["--", "--help"], 20_000, false, "--help"),
    (&["--safe"], 20_000, true, "-"),
    (&["x", "--safe", "--nodes=7"], 7, true, "x"),
    (&["--safe", "--", "--safe"], 20_000, true, "--safe"),
    (&["--nodes", "7", "x"], 7, false, "x"),
    (&["--safe", "x"], 20_000, true, "x"),
    (&["--model", "exact"], 20_000, false, "-"),
    (&["--model=exact", "x"], 20_000, false, "x"),
    (&["x", "--model", "exact", "--safe"], 20_000, true, "x"),
    (&["--", "--model=abs"], 20_000, false, "--model=abs"),
];

/// Words that are taken, and the model that they give.
const MODELS: [(&[&str], Mode); 5] = [
    (&["--model", "exact"], Mode::Exact),
    (&["--model", "interval"], Mode::Interval),
    (&["x", "--model=abs", "--paths=0"], Mode::Abs { k: 0 }),
    (&["--paths", "64", "--model", "abs"], Mode::Abs { k: 64 }),
    (&["--paths=0000000002", "--model=abs"], Mode::Abs { k: 2 }),
];

/// Words that are taken, and the seed that they give.
const SEEDS: [(&[&str], u64); 4] = [
    (&["--demo", "0"], 0),
    (&["--demo=2147483647"], 2_147_483_647),
    (&["-", "--demo", "0000000007"], 7),
    (&["--model=exact", "--nodes", "7", "--demo=1"], 1),
];

/// Words that are refused.
const REFUSED: [&[&str]; 56] = [
    &["--nodes"],
    &["x", "--nodes"],
    &["--nodes="],
    &["--nodes", ""],
    &["--nodes", "--"],
    &["--nodes", "--", "7"],
    &["--nodes", "x"],
    &["--nodes", "7x"],
    &["--nodes", "+7"],
    &["--nodes", "-7"],
    &["--nodes=-7"],
    &["--nodes", "0"],
    &["--nodes=1000001"],
    &["--nodes", "00000000007"],
    &["--nodes", "9999999999"],
    &["--nodes", "4294967303"],
    &["--nodes", "7", "--nodes", "7"],
    &["x", "y"],
    &["x", "--", "y"],
    &["--", "x", "y"],
    &["-", "-"],
    &["--safe", "--safe"],
    &["--safe=1"],
    &["--safe="],
    &["--model"],
    &["--model="],
    &["--model", "flow"],
    &["--model", "Exact"],
    &["--model=exact", "--model=exact"],
    &["--model", "interval", "--safe"],
    &["--model", "abs"],
    &["--model", "abs", "--paths", "65"],
    &["--model", "abs", "--paths", "2", "--safe"],
    &["--paths", "2"],
    &["--paths=2"],
    &["--model=exact", "--paths=2"],
    &["--model=interval", "--paths=2"],
    &["--demo"],
    &["--demo="],
    &["--demo", "2147483648"],
    &["--demo", "1", "x.graph"],
    &["--demo", "1", "--safe"],
    &["--demo", "1", "--model", "interval"],
    &["--colour"],
    &["--help"],
    &["-h"],
    &["--version"],
    &["-V"],
    &["--nodesx=7"],
    &["--node=7"],
    &["-=7"],
    &["--=x"],
    &["-x"],
    &["-7"],
    &["---"],
    &["-safe"],
];

#[test]
fn words_are_taken(rt: HostRuntime) -> Result<(), Fail> {
    let alloc = rt.alloc();
    for (words, nodes, safe, file) in TAKEN {
        let settings = Settings::of_words(alloc, &owned(alloc, words)?)?;
        assert_eq!(rt; settings.nodes, nodes, "{words:?}");
        assert!(rt; settings.file.as_str() == file, "{words:?}");
        assert_eq!(rt; settings.mode, Mode::Exact, "{words:?}");
        assert!(rt;
            settings.safe == safe && settings.demo.is_none(),
            "{words:?}"
        );
    }
    Ok(())
}

#[test]
fn models_are_taken(rt: HostRuntime) -> Result<(), Fail> {
    let alloc = rt.alloc();
    for (words, mode) in MODELS {
        let settings = Settings::of_words(alloc, &owned(alloc, words)?)?;
        assert_eq!(rt; settings.mode, mode, "{words:?}");
    }
    Ok(())
}

#[test]
fn seeds_are_taken(rt: HostRuntime) -> Result<(), Fail> {
    let alloc = rt.alloc();
    for (words, seed) in SEEDS {
        let settings = Settings::of_words(alloc, &owned(alloc, words)?)?;
        assert_eq!(rt; settings.demo, Some(seed), "{words:?}");
    }
    Ok(())
}

#[test]
fn words_are_refused(rt: HostRuntime) -> Result<(), Fail> {
    let alloc = rt.alloc();
    for words in REFUSED {
        let refused = Settings::of_words(alloc, &owned(alloc, words)?);
        assert!(rt; matches!(refused, Err(WordFault::Words)), "{words:?}");
    }
    Ok(())
}
