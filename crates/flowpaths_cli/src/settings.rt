//! What the words of the command line give.

use dag_net::Mode;
use flow_io::Word;
use flow_solver::Asked;

/// How an input is read and solved.
#[derive(Drop)]
pub struct Settings {
    /// What is asked of an answer.
    pub mode: Mode,
    /// The most tokens of a search.
    pub nodes: u32,
    /// Whether the safe runs are listed.
    pub safe: bool,
    /// The seed of the generated text, if that is solved in place of an input.
    pub demo: Option<u64>,
    /// The name of the input, `-` for standard input.
    pub file: Word,
}

impl Settings {
    ghost use Rattle.std.specs.Prelude.{◌≡◌};
    ghost use Rattle.flowpaths_cli.specs.Asked.{asked_by};

    /// What the solver is asked.
    pub fn asked(&self) -> Asked
        ensures { result ≡ asked_by self.now }
    {
        Asked {
            mode: self.mode,
            nodes: self.nodes,
            safe: self.safe,
        }
    }
}
