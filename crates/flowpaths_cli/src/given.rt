//! What the words give to the arguments of the command, and what of it is refused.
ghost use Rattle.std.specs.Prelude.{◌≡◌, ◌≢◌, ◌||◌, [], IfOk, OnOk, option_and_then, option_copied};
ghost use Rattle.flowpaths_cli.specs.Numbers.{number_in};
ghost use Rattle.flowpaths_cli.specs.Values.{values_in, asks_model, is_bad_number, names_file, has_bad_model, has_bad_paths, has_bad_nodes, has_bad_seed, has_stray_paths, lacks_paths, has_stray_safe, has_stray_seed, is_refused, mode_by, settings_by};
ghost use Rattle.flowpaths_cli.specs.Words.{texts, faults_of, values_of};

use crate::command::command;
use crate::numbers::{MOST_NODES, MOST_PATHS, MOST_SEED, number_in};
use crate::words::WordFault;
use dag_net::Mode;
use std::alloc::Global;

/// The most tokens of a search, where the words name no number.
const DEFAULT_NODES: u32 = 20_000;

/// What the words give to each argument, where they give something.
#[derive(Clone, Copy)]
pub struct Given<'a> {
    pub model: Option<&'a str>,
    pub paths: Option<&'a str>,
    pub nodes: Option<&'a str>,
    pub safe: bool,
    pub demo: Option<&'a str>,
    pub file: Option<&'a str>,
}

impl<'a> Given<'a> {
    /// What words give that the command takes.
    pub fn by(alloc: Global, words: &'a [String]) -> Result<Given<'a>, WordFault>
        ensures taken { OnOk result (faults_of (texts words.entry.now) ≡ []) }
        ensures values { IfOk result (λ given. values_in given ≡ values_of (texts words.entry.now)) }
        ensures words { result ≡ Err WordFault.Words → faults_of (texts words.entry.now) ≢ [] }
    {
        let matches = command(alloc)?.try_get_matches_from(words)?;
        Ok(Given {
            model: matches.get_str("model"),
            paths: matches.get_str("paths"),
            nodes: matches.get_str("nodes"),
            safe: matches.get_str("safe").is_some_and(|text| text == "true"),
            demo: matches.get_str("demo"),
            file: matches.get_str("file"),
        })
    }

    /// Whether this model is asked for, by its name or by default.
    fn asks_model(self, name: &str) -> bool
        ensures { result ≡ asks_model name.now (values_in self.entry) }
    {
        self.model.unwrap_or("exact") == name
    }

    /// Whether a name other than `-` is given to the input.
    fn names_file(self) -> bool
        ensures { result ≡ names_file (values_in self.entry) }
    {
        self.file.unwrap_or("-") != "-"
    }

    /// Whether the model is none of the three.
    fn has_bad_model(self) -> bool
        ensures { result ≡ has_bad_model (values_in self.entry) }
    {
        !(self.asks_model("exact") || self.asks_model("interval") || self.asks_model("abs"))
    }

    /// Whether a number of paths stands without the model abs.
    fn has_stray_paths(self) -> bool
        ensures { result ≡ has_stray_paths (values_in self.entry) }
    {
        self.paths.is_some() && !self.asks_model("abs")
    }

    /// Whether the model abs stands without a number of paths.
    fn lacks_paths(self) -> bool
        ensures { result ≡ lacks_paths (values_in self.entry) }
    {
        self.asks_model("abs") && self.paths.is_none()
    }

    /// Whether safe runs are asked for in a model other than exact.
    fn has_stray_safe(self) -> bool
        ensures { result ≡ has_stray_safe (values_in self.entry) }
    {
        self.safe && !self.asks_model("exact")
    }

    /// Whether a generated text is asked for, and besides it another model, safe runs or an input.
    fn has_stray_seed(self) -> bool
        ensures { result ≡ has_stray_seed (values_in self.entry) }
    {
        self.demo.is_some() && (!self.asks_model("exact") || self.safe || self.names_file())
    }

    /// Whether a number is none, or out of its range.
    fn has_bad_number(self) -> bool
        ensures { result ≡ (has_bad_paths (values_in self.entry) || (has_bad_nodes (values_in self.entry) || has_bad_seed (values_in self.entry))) }
    {
        is_bad_number(0, MOST_PATHS, self.paths)
            || is_bad_number(1, MOST_NODES, self.nodes)
            || is_bad_number(0, MOST_SEED, self.demo)
    }

    /// Whether what is given is refused.
    pub fn is_refused(self) -> bool
        ensures { result ≡ is_refused (values_in self.entry) }
    {
        self.has_bad_model()
            || self.has_bad_number()
            || self.has_stray_paths()
            || self.lacks_paths()
            || self.has_stray_safe()
            || self.has_stray_seed()
    }

    /// The model, with its number of paths.
    pub fn mode(self) -> Mode
        ensures { result ≡ mode_by (values_in self.entry) }
    {
        if self.asks_model("abs") {
            let k = number_at(0, MOST_PATHS, self.paths).unwrap_or(0);
            Mode::Abs { k }
        } else if self.asks_model("interval") {
            Mode::Interval
        } else {
            Mode::Exact
        }
    }

    /// The most tokens of a search.
    pub fn nodes(self) -> u32
        ensures { result ≡ (settings_by (values_in self.entry)).nodes }
    {
        number_at(1, MOST_NODES, self.nodes).unwrap_or(DEFAULT_NODES)
    }

    /// The seed of a generated text.
    pub fn seed(self) -> Option<u64>
        ensures { result ≡ (settings_by (values_in self.entry)).demo }
    {
        number_at(0, MOST_SEED, self.demo).map(u64::from)
    }

    /// The name of the input.
    pub fn name(self) -> &'a str
        ensures { result.now ≡ (settings_by (values_in self.entry)).file }
    {
        self.file.unwrap_or("-")
    }
}

/// The number in a range that a text spells, where there is one.
fn number_at(least: u32, most: u32, text: Option<&str>) -> Option<u32>
    ensures { result ≡ option_and_then (number_in least most) (option_copied text.entry) }
{
    number_in(least, most, text?)
}

/// Whether there is a text, and it spells no number in the range.
fn is_bad_number(least: u32, most: u32, text: Option<&str>) -> bool
    ensures { result ≡ is_bad_number least most (option_copied text.entry) }
{
    text.is_some() && number_at(least, most, text).is_none()
}
