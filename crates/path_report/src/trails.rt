//! The lines of trails and of their tokens.
ghost use Rattle.std.specs.Prelude.{◌+◌, [], ◌∷◌, ◌++◌, flat_map, decimal};
ghost use Rattle.report_reading.specs.ReportText.{line, token_line, trail_fields, trail_text};
ghost use Rattle.path_report.specs.Sending.{PutsText};

use crate::digits::Digits;
use crate::page::Page;
use decomposition::Token;
use flow_io::{Fault, Output};
use report_terms::Trail;

/// The lines of a trail, where it is there.
pub fn put_trail_if_any<O: Output>(
    page: &mut Page,
    out: &mut O,
    trail: &Option<Trail>,
) -> Result<(), Fault>
    ensures { PutsText (trail_text trail.now) O.written O.faults out.old out.new page.old page.new result }
{
    match trail {
        None => Ok(()),
        Some(trail) => put_trail(page, out, b"trail", trail),
    }
}

/// The line of a trail, which begins with the word, and those of its tokens.
pub fn put_trail<O: Output>(
    page: &mut Page,
    out: &mut O,
    word: &[u8],
    trail: &Trail,
) -> Result<(), Fault>
    ensures { PutsText (line (word.now ∷ trail_fields trail.now) ++ flat_map token_line trail.now.tokens) O.written O.faults out.old out.new page.old page.new result }
{
    put_trail_line(page, out, word, trail)?;
    put_tokens(page, out, trail.tokens.as_slice())
}

/// The word, the number of slots, the limit, and the number of tokens.
fn put_trail_line<O: Output>(
    page: &mut Page,
    out: &mut O,
    word: &[u8],
    trail: &Trail,
) -> Result<(), Fault>
    ensures { PutsText (line (word.now ∷ trail_fields trail.now)) O.written O.faults out.old out.new page.old page.new result }
{
    let slots = Digits::of(trail.decision.slots as u64);
    let count = Digits::of(trail.tokens.len() as u64);
    let (slots, count) = (slots.as_slice(), count.as_slice());
    match trail.decision.limit {
        None => page.line(out, word, &[slots, b"none", count]),
        Some(limit) => page.line(out, word, &[slots, Digits::of(limit).as_slice(), count]),
    }
}

/// A line for each token.
fn put_tokens<O: Output>(page: &mut Page, out: &mut O, tokens: &[Token]) -> Result<(), Fault>
    ensures { PutsText (flat_map token_line tokens.now) O.written O.faults out.old out.new page.old page.new result }
{
    for token in tokens {
        put_token(page, out, *token)?;
    }
    Ok(())
}

/// The line of a token.
fn put_token<O: Output>(page: &mut Page, out: &mut O, token: Token) -> Result<(), Fault>
    ensures { PutsText (token_line token) O.written O.faults out.old out.new page.old page.new result }
{
    match token {
        Token::Gap => page.line(out, b"gap", &[]),
        Token::Miss(c) => put_place(page, out, b"miss", c),
        Token::Split(k) => put_place(page, out, b"split", k),
        Token::Step(k) => put_place(page, out, b"step", k),
    }
}

/// The line of a slot or a rule, which counts from 1 in the text.
pub fn put_place<O: Output>(
    page: &mut Page,
    out: &mut O,
    word: &[u8],
    place: u32,
) -> Result<(), Fault>
    ensures { PutsText (line (word.now ∷ decimal (place + 1) ∷ [])) O.written O.faults out.old out.new page.old page.new result }
{
    let number = Digits::of(place as u64 + 1);
    page.line(out, word, &[number.as_slice()])
}
