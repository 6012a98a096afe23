//! The line in progress.
ghost use Rattle.std.specs.Prelude.{◌≡◌, ℕ, ◌+◌, ◌==◌, ◌≤◌, List, length, false, OnOk, if◌then◌else◌};
ghost use Rattle.std.specs.List.{list_all, list_any};
ghost use Rattle.graph_text.specs.Blocks.{after_blanks};
ghost use Rattle.graph_text.specs.Progress.{is_feed};
ghost use Rattle.graph_text.specs.Lines.{is_blank, is_blank_line, without_return};
ghost use Rattle.graph_text.specs.Reading.{line_at};
ghost use Rattle.graph_text.specs.ShownLine.{ShowsLine};

use crate::fields::after_blanks;
use std::alloc::{AllocError, Global};

/// The most bytes that a line may have.
const MOST_BYTES: usize = 65_536;

/// The most bytes of a line that are kept: with those of a line that has the most, and its carriage return, one more.
const MOST_KEPT: usize = 65_538;

/// The bytes without the one carriage return at their end, if they have one.
fn without_return(bytes: &[u8]) -> &[u8]
    ensures value { result.now ≡ without_return bytes.now }
    ensures one_line { list_any is_feed bytes.now ≡ false → list_any is_feed result.now ≡ false }
    ensures no_longer { length result.now ≤ length bytes.now }
    ensures one_less { length bytes.now ≤ length result.now + 1 }
{
    let n = bytes.len();
    if n > 0 && bytes[n - 1] == b'\r' {
        &bytes[..n - 1]
    } else {
        bytes
    }
}

/// What is to be kept of further bytes of a line, of which there is nothing yet, or there is.
fn begun(span: &[u8], is_blank: bool) -> &[u8]
    ensures { result.now ≡ (if is_blank then after_blanks span.now else span.now) }
{
    if is_blank { after_blanks(span) } else { span }
}

/// The bytes of a line that has not ended: their number, and as many as count from the first one on that is no blank.
#[derive(Drop)]
pub struct OpenLine {
    length: usize,
    text: Vec<u8>,
    ghost one_line: { list_any is_feed text.items ≡ false },
}

impl OpenLine {
    ghost use Rattle.std.specs.Prelude.{[], ◌++◌};
    ghost use Rattle.graph_text.specs.OpenLine.{HoldsLine};

    /// No byte yet. Takes no memory.
    pub fn new(alloc: Global) -> OpenLine
        ensures { HoldsLine result [] }
    {
        OpenLine {
            length: 0,
            text: Vec::new(alloc),
        }
    }

    /// Whether it has no byte.
    pub fn is_empty(&self) -> bool
        ensures { (bytes : List ℕ) → HoldsLine self.now bytes → result ≡ (length bytes == 0) }
    {
        self.length == 0
    }

    /// Whether all its bytes are blanks.
    pub fn is_blank(&self) -> bool
        ensures { (bytes : List ℕ) → HoldsLine self.now bytes → result ≡ list_all is_blank bytes }
    {
        self.text.is_empty()
    }

    /// Takes further bytes of the line. After an `Err` it is of no use.
    pub fn extend(&mut self, span: &[u8]) -> Result<(), AllocError>
        requires one_line { list_any is_feed span.now ≡ false }
        ensures { OnOk result ((bytes : List ℕ) → HoldsLine self.old bytes → HoldsLine self.new (bytes ++ span.now)) }
    {
        let room = MOST_KEPT.saturating_sub(self.text.len());
        self.length = self.length.saturating_add(span.len());
        let begun = begun(span, self.text.is_empty());
        self.text.extend_from_slice(&begun[..room.min(begun.len())])
    }

    /// Begins the next line.
    pub fn clear(&mut self)
        ensures { HoldsLine self.new [] }
    {
        self.length = 0;
        self.text.clear();
    }

    /// Whether the line is too long, and what is kept of it. That is its text from the first byte on that is no blank,
    /// or of a line that is too long enough of it to show of which kind the line is.
    pub fn line(&self) -> (bool, &[u8])
        ensures shows { (bytes : List ℕ) (number : ℕ) → HoldsLine self.now bytes
            → ShowsLine number result.0 result.1.now (line_at (number, without_return bytes)) }
        ensures text { (bytes : List ℕ) → HoldsLine self.now bytes → result.0 ≡ false
            → result.1.now ≡ after_blanks (without_return bytes) }
        ensures one_line { list_any is_feed result.1.now ≡ false }
        ensures blank { (bytes : List ℕ) → HoldsLine self.now bytes
            → (length result.1.now == 0) ≡ is_blank_line (without_return bytes) }
    {
        let kept = self.text.as_slice();
        let text = without_return(kept);
        let removed = kept.len() - text.len();
        (self.length > MOST_BYTES + removed, text)
    }

    /// Whether the line is blank, where it ends here.
    pub fn is_blank_line(&self) -> bool
        ensures { (bytes : List ℕ) → HoldsLine self.now bytes → result ≡ is_blank_line (without_return bytes) }
    {
        without_return(self.text.as_slice()).is_empty()
    }
}
