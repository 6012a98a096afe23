//! The name of an input.
ghost use Rattle.std.specs.Prelude.{◌≡◌, Some, None, MatchOption};
ghost use Rattle.plain_words.specs.FileWords.{texts, begins_with_dash, is_file, file_in};

/// The input that words of the form `[FILE]` name: `-` where there is no word. Other words name none.
pub fn file_in(words: &[String]) -> Option<&str>
    ensures { MatchOption result (file_in (texts words.now) ≡ None)
        (λ name. file_in (texts words.now) ≡ Some name.now) }
{
    match words {
        [] => Some("-"),
        [word] if is_file(word.as_str()) => Some(word.as_str()),
        _ => None,
    }
}

/// Whether a word is the name of an input: it is `-`, or does not begin with `-`.
fn is_file(word: &str) -> bool
    ensures { result ≡ is_file word.now }
{
    word == "-" || !begins_with_dash(word)
}

/// Whether a word begins with `-`.
fn begins_with_dash(word: &str) -> bool
    ensures { result ≡ begins_with_dash word.now }
{
    match word.as_bytes().first() {
        Some(byte) => *byte == b'-',
        None => false,
    }
}
