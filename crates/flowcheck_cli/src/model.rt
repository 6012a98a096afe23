//! The model that a text of reports names.
ghost use Rattle.std.specs.Prelude.{◌≡◌};
ghost use Rattle.decomposition.specs.declared.Mode.TheVariants.{Abs};
ghost use Rattle.report_reading.specs.ReportText.{model_line};
ghost use Rattle.flowcheck_cli.specs.ReportTexts.{ended_lines, second_of, mode_of_line, model_in};

use crate::rest::{Rest, line_length};
use crate::short_line::ShortLine;
use dag_net::Mode;

/// The most paths of the model `abs`.
const MOST_PATHS: u32 = 64;

/// The model for reading, by line 2 of the first text.
#[tactic(auto, unfolding(crate::specs::ReportTexts::model_in))]
pub fn model_in(reports: &[u8]) -> Mode
    ensures { result ≡ model_in reports.now }
{
    match Rest::of(reports).take_text() {
        Some(text) => mode_of_line(second_line(text.bytes)),
        None => Mode::Exact,
    }
}

/// The second line, with the line feed at its end if it has one.
fn second_line(text: &[u8]) -> &[u8]
    ensures { result.now ≡ second_of (ended_lines text.now) }
{
    let rest = &text[line_length(text)..];
    &rest[..line_length(rest)]
}

/// The model whose line this is, and else the exact one.
fn mode_of_line(line: &[u8]) -> Mode
    ensures { result ≡ mode_of_line line.now }
{
    if line == b"model interval\n".as_slice() {
        return Mode::Interval;
    }
    for k in 0..=MOST_PATHS {
        if line == abs_line(k).as_slice() {
            return Mode::Abs { k };
        }
    }
    Mode::Exact
}

/// The line of the model `abs` with so many paths.
fn abs_line(k: u32) -> ShortLine
    ensures { result ≡ model_line (Abs k) }
{
    let mut line = ShortLine::of(b"model");
    line.field(b"abs");
    line.number(u64::from(k));
    line.end();
    line
}
