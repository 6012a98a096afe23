//! The lines of trails and of their tokens.
ghost use Rattle.std.specs.Prelude.{◌≡◌, Ok, IfOk, IfErr};
ghost use Rattle.report_reading.specs.LineFields.{texts};
ghost use Rattle.report_reading.specs.LineSteps.{FaultsAs};
ghost use Rattle.report_reading.specs.ListSteps.{trail_in, token_in};

use crate::fields::{field_at, has_words};
use crate::numbers::{decision_in, number_in, place_in};
use crate::read_fault::LineFault::{self, Bad};
use crate::read_fault::ReadWhy::{BadForm, BadNumber};
use decomposition::Token;
use report_terms::{Tokens, Trail};
use std::alloc::Global;

/// A trail without its tokens, and the number of them.
pub(crate) fn trail_in(
    alloc: Global,
    slots: &[u8],
    limit: &[u8],
    count: &[u8],
) -> Result<(Trail, u64), LineFault>
    ensures ok { IfOk result (λ trail. trail_in slots.now limit.now count.now ≡ Ok trail) }
    ensures err { IfErr result (FaultsAs (trail_in slots.now limit.now count.now)) }
{
    let decision = decision_in(slots, limit).ok_or(Bad(BadNumber))?;
    let count = number_in(0, u64::MAX, count).ok_or(Bad(BadNumber))?;
    let tokens = Tokens::new(alloc);
    Ok((Trail { decision, tokens }, count))
}

/// A token.
pub(crate) fn token_in(fields: &[&[u8]]) -> Result<Token, LineFault>
    ensures ok { IfOk result (λ token. token_in (texts fields.now) ≡ Ok token) }
    ensures err { IfErr result (FaultsAs (token_in (texts fields.now))) }
{
    if has_words(fields, &[b"gap"], 1) {
        return Ok(Token::Gap);
    }
    if has_words(fields, &[b"miss"], 2) {
        let rule = place_in(field_at(fields, 1)).ok_or(Bad(BadNumber))?;
        return Ok(Token::Miss(rule));
    }
    if has_words(fields, &[b"split"], 2) {
        let slot = place_in(field_at(fields, 1)).ok_or(Bad(BadNumber))?;
        return Ok(Token::Split(slot));
    }
    if !has_words(fields, &[b"step"], 2) {
        return Err(Bad(BadForm));
    }
    let slot = place_in(field_at(fields, 1)).ok_or(Bad(BadNumber))?;
    Ok(Token::Step(slot))
}
