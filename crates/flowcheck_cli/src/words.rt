//! The words of the command line.
ghost use Rattle.std.specs.Prelude.{◌≡◌, Some, None, MatchOption};
ghost use Rattle.flowcheck_cli.specs.Words.{texts, names_of};

/// The names of the two inputs.
#[derive(Clone, Copy, Debug)]
pub struct Names<'a> {
    pub graph: &'a str,
    pub report: &'a str,
}

impl<'a> Names<'a> {
    /// The two words, where there are exactly two and they differ.
    pub fn of_words(words: &'a [String]) -> Option<Names<'a>>
        ensures { MatchOption result (names_of (texts words.now) ≡ None)
            (λ names. names_of (texts words.now) ≡ Some (record { graph = names.graph.now; report = names.report.now })) }
    {
        match words {
            [graph, report] if graph != report => Some(Names {
                graph: graph.as_str(),
                report: report.as_str(),
            }),
            _ => None,
        }
    }
}
