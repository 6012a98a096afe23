//! What the first lines of a report text say.
ghost use Rattle.std.specs.Prelude.{◌≡◌, ◌==◌, ◌&&◌, ◌||◌, not, length, Ok, IfOk, IfErr};
ghost use Rattle.std.specs.List.{list_any, position_or_len, before_first, after_first};
ghost use Rattle.graph_text.specs.Lines.{is_blank};
ghost use Rattle.report_reading.specs.ReportText.{begins_blank, ends_blank, is_name};
ghost use Rattle.report_reading.specs.LineFields.{texts};
ghost use Rattle.report_reading.specs.LineSteps.{graph_in, model_in, mark_in, refusal_in, bound_in, FaultsAs};

use crate::fields::{field_at, has_byte, has_words};
use crate::numbers::{limit_in, number_in, penalty_in};
use crate::read_fault::LineFault::{self, Bad};
use crate::read_fault::ReadWhy::{BadForm, BadNumber};
use crate::words::why_in;
use dag_net::Mode;
use flow_io::Bytes;
use report_terms::{Mark, Refusal};
use std::alloc::Global;

/// Whether a byte is a space or a tab.
fn is_blank(byte: u8) -> bool
    ensures { result ≡ is_blank byte }
{
    byte == b' ' || byte == b'\t'
}

/// Whether bytes begin with a space or a tab.
fn begins_blank(bytes: &[u8]) -> bool
    ensures { result ≡ begins_blank bytes.now }
{
    !bytes.is_empty() && is_blank(bytes[0])
}

/// Whether bytes end with a space or a tab.
fn ends_blank(bytes: &[u8]) -> bool
    ensures { result ≡ ends_blank bytes.now }
{
    !bytes.is_empty() && is_blank(bytes[bytes.len() - 1])
}

/// Whether bytes may be the name of a block.
fn is_name(name: &[u8]) -> bool
    ensures { result ≡ is_name name.now }
{
    if has_byte(name, b'\n') {
        return false;
    }
    !begins_blank(name) && !ends_blank(name)
}

/// The place of the first space, or the length where there is none.
fn place_of_space(bytes: &[u8]) -> usize
    ensures { result ≡ position_or_len (λ b. b == 32) bytes.now }
{
    match bytes.iter().position(|byte| *byte == b' ') {
        None => bytes.len(),
        Some(place) => place,
    }
}

/// What stands before the first space.
fn before_space(bytes: &[u8]) -> &[u8]
    ensures { result.now ≡ before_first (λ b. b == 32) bytes.now }
{
    let end = place_of_space(bytes);
    if end < bytes.len() {
        &bytes[..end]
    } else {
        bytes
    }
}

/// What stands after the first space, nothing where there is none.
fn after_space(bytes: &[u8]) -> &[u8]
    ensures { result.now ≡ after_first (λ b. b == 32) bytes.now }
{
    let end = place_of_space(bytes);
    if end < bytes.len() {
        &bytes[end + 1..]
    } else {
        b""
    }
}

/// Whether there is a byte, and no tab.
fn is_filled(index: &[u8]) -> bool
    ensures { result ≡ (not (length index.now == 0) && not (list_any (λ b. b == 9) index.now)) }
{
    !index.is_empty() && !has_byte(index, b'\t')
}

/// Whether there is no space, or a name behind it.
fn may_be_named(rest: &[u8], name: &[u8]) -> bool
    ensures { result ≡ (not (list_any (λ b. b == 32) rest.now) || (not (length name.now == 0) && is_name name.now)) }
{
    !has_byte(rest, b' ') || (!name.is_empty() && is_name(name))
}

/// The number and the name of the block.
pub(crate) fn graph_in(alloc: Global, line: &[u8]) -> Result<(u64, Bytes), LineFault>
    ensures ok { IfOk result (λ graph. graph_in line.now ≡ Ok graph) }
    ensures err { IfErr result (FaultsAs (graph_in line.now)) }
{
    if !line.starts_with(b"graph ") {
        return Err(Bad(BadForm));
    }
    let rest = &line[6..];
    let index = before_space(rest);
    if !is_filled(index) {
        return Err(Bad(BadForm));
    }
    let name = after_space(rest);
    if !may_be_named(rest, name) {
        return Err(Bad(BadForm));
    }
    match number_in(1, u64::MAX, index) {
        None => Err(Bad(BadNumber)),
        Some(number) => Ok((number, Bytes::from_vec(Vec::from_slice(alloc, name)?))),
    }
}

/// The model.
pub(crate) fn model_in(fields: &[&[u8]]) -> Result<Mode, LineFault>
    ensures ok { IfOk result (λ mode. model_in (texts fields.now) ≡ Ok mode) }
    ensures err { IfErr result (FaultsAs (model_in (texts fields.now))) }
{
    if has_words(fields, &[b"model", b"exact"], 2) {
        return Ok(Mode::Exact);
    }
    if has_words(fields, &[b"model", b"interval"], 2) {
        return Ok(Mode::Interval);
    }
    if !has_words(fields, &[b"model", b"abs"], 3) {
        return Err(Bad(BadForm));
    }
    let k = penalty_in(field_at(fields, 2)).ok_or(Bad(BadNumber))?;
    Ok(Mode::Abs { k })
}

/// The mark.
pub(crate) fn mark_in(fields: &[&[u8]]) -> Result<Mark, LineFault>
    ensures ok { IfOk result (λ mark. mark_in (texts fields.now) ≡ Ok mark) }
    ensures err { IfErr result (FaultsAs (mark_in (texts fields.now))) }
{
    if has_words(fields, &[b"mark", b"optimal"], 2) {
        return Ok(Mark::Optimal);
    }
    if has_words(fields, &[b"mark", b"infeasible"], 2) {
        return Ok(Mark::Infeasible);
    }
    if !has_words(fields, &[b"mark", b"bounds"], 2) {
        return Err(Bad(BadForm));
    }
    Ok(Mark::Bounds)
}

/// A refusal, behind its word.
pub(crate) fn refusal_in(fields: &[&[u8]]) -> Result<Refusal, LineFault>
    ensures ok { IfOk result (λ refusal. refusal_in (texts fields.now) ≡ Ok refusal) }
    ensures err { IfErr result (FaultsAs (refusal_in (texts fields.now))) }
{
    let why = why_in(field_at(fields, 2)).ok_or(Bad(BadForm))?;
    let line = number_in(1, u64::MAX, field_at(fields, 1)).ok_or(Bad(BadNumber))?;
    Ok(Refusal { line, why })
}

/// A bound, behind its word.
pub(crate) fn bound_in(word: &[u8], fields: &[&[u8]]) -> Result<Option<u64>, LineFault>
    ensures ok { IfOk result (λ bound. bound_in word.now (texts fields.now) ≡ Ok bound) }
    ensures err { IfErr result (FaultsAs (bound_in word.now (texts fields.now))) }
{
    if !has_words(fields, &[word], 2) {
        return Err(Bad(BadForm));
    }
    let bound = limit_in(field_at(fields, 1)).ok_or(Bad(BadNumber))?;
    Ok(bound)
}
