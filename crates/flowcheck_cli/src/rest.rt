//! The texts that a text of reports is cut into, one after another.
ghost use Rattle.std.specs.Prelude.{◌≡◌, ◌≤◌, ◌<◌, ◌+◌, ◌^◌, ◌==◌, [], ◌∷◌, ◌++◌, length, take, drop};
ghost use Rattle.std.specs.List.{position};
ghost use Rattle.flowcheck_cli.specs.ReportTexts.{ended_lines, report_texts, line_count};

use std::marker::Model;

/// One of the texts, and the number of its first line in the whole text of reports.
#[derive(Clone, Copy, Debug)]
pub struct Text<'a> {
    pub line: u64,
    pub bytes: &'a [u8],
}

/// What is left of a text of reports after some of its texts were taken.
#[derive(Drop)]
pub struct Rest<'a> {
    line: u64,
    bytes: &'a [u8],
}

impl<'a> Model for Rest<'a> {
    ghost use Rattle.std.specs.Prelude.{◌<◌, ◌+◌, ◌^◌, length};
    ghost use Rattle.flowcheck_cli.specs.ReportTexts.{Left};

    ghost Value = { Left };

    ghost view = { λ r. record { line = r.line; bytes = r.bytes.now } };

    ghost invariant = { λ r. r.line + length r.bytes.now < 2 ^ 64 };
}

impl<'a> Rest<'a> {
    ghost use Rattle.std.specs.Prelude.{IsTrue, IfNone, IfSome, is_none};

    /// All of a text of reports.
    pub fn of(reports: &'a [u8]) -> Rest<'a>
        ensures { result ≡ record { line = 1; bytes = reports.now } }
    {
        Rest {
            line: 1,
            bytes: reports,
        }
    }

    /// Takes the next text, if there is one more.
    pub fn take_text(&mut self) -> Option<Text<'a>>
        ensures none { IfNone result ((report_texts self.old.bytes ≡ []) × (self.new ≡ self.old)) }
        ensures texts { IfSome result (λ text. report_texts self.old.bytes ≡ text.bytes.now ∷ report_texts self.new.bytes) }
        ensures bytes { IfSome result (λ text. self.old.bytes ≡ text.bytes.now ++ self.new.bytes) }
        ensures line { IfSome result (λ text. text.line ≡ self.old.line) }
        ensures next { IfSome result (λ text. self.new.line ≡ self.old.line + line_count text.bytes.now) }
        ensures within { self.new.line + length self.new.bytes ≤ self.old.line + length self.old.bytes }
    {
        if self.bytes.is_empty() {
            return None;
        }
        let bytes = self.bytes;
        let (text, rest) = bytes.split_at(text_length(bytes));
        let line = self.line;
        self.line = line + line_count(text);
        self.bytes = rest;
        Some(Text { line, bytes: text })
    }
}

/// How many texts there are.
pub(crate) fn count_texts(reports: &[u8]) -> u64
    requires { length reports.now < 2 ^ 30 }
    ensures { result ≡ length (report_texts reports.now) }
{
    let mut rest = Rest::of(reports);
    let mut count = 0;
    while let Some(_) = rest.take_text() {
        count += 1;
    }
    count
}

/// The length of the first line, with the line feed at its end if it has one.
pub(crate) fn line_length(bytes: &[u8]) -> usize
    ensures within { result ≤ length bytes.now }
    ensures some { 0 < length bytes.now → 0 < result }
    ensures lines { 0 < length bytes.now → ended_lines bytes.now ≡ take result bytes.now ∷ ended_lines (drop result bytes.now) }
{
    match line_end(bytes) {
        Some(place) => place + 1,
        None => bytes.len(),
    }
}

/// The place of the first line feed.
fn line_end(bytes: &[u8]) -> Option<usize>
    ensures { result ≡ position (λ b. b == 10) bytes.now }
{
    bytes.iter().position(|byte| *byte == b'\n')
}

/// The length of the first text: up to and with its line `end`, or all of the bytes.
fn text_length(bytes: &[u8]) -> usize
    ensures within { result ≤ length bytes.now }
    ensures texts { 0 < length bytes.now → report_texts bytes.now ≡ take result bytes.now ∷ report_texts (drop result bytes.now) }
{
    let mut length = 0;
    while length < bytes.len() {
        let rest = &bytes[length..];
        let line = &rest[..line_length(rest)];
        length += line.len();
        if line == b"end\n".as_slice() {
            return length;
        }
    }
    length
}

/// How many line feeds there are.
fn line_count(text: &[u8]) -> u64
    ensures { result ≡ line_count text.now }
{
    let mut count = 0;
    for byte in text {
        if *byte == b'\n' {
            count += 1;
        }
    }
    count
}
