//! The words of the command line.
ghost use Rattle.std.specs.Prelude.{◌≡◌, Some, None, MatchOption};
ghost use Rattle.flownodes_cli.specs.Words.{texts, call_of, calling};

use plain_words::file_in;

/// What the words ask for: the text of the split graph in place of a report, and the name of the input.
#[derive(Clone, Copy, Debug)]
pub struct Call<'a> {
    pub split: bool,
    pub file: &'a str,
}

impl<'a> Call<'a> {
    /// What words of the form `[--split] [FILE]` ask for. Other words ask for nothing.
    pub fn of_words(words: &'a [String]) -> Option<Call<'a>>
        ensures { MatchOption result (call_of (texts words.now) ≡ None)
            (λ call. call_of (texts words.now) ≡ Some (record { split = call.split; file = call.file.now })) }
    {
        match words.split_first() {
            Some((first, others)) if first.as_str() == "--split" => Call::naming(true, others),
            _ => Call::naming(false, words),
        }
    }

    /// The same where the words name at most the input.
    fn naming(split: bool, words: &'a [String]) -> Option<Call<'a>>
        ensures { MatchOption result (calling split (texts words.now) ≡ None)
            (λ call. calling split (texts words.now) ≡ Some (record { split = call.split; file = call.file.now })) }
    {
        file_in(words).map(|file| Call { split, file })
    }
}
