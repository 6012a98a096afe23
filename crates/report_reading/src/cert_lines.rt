//! The lines of certificates and of their items.
ghost use Rattle.std.specs.Prelude.{◌≡◌, Ok, IfOk, OnOk, IfErr};
ghost use Rattle.report_reading.specs.LineFields.{texts};
ghost use Rattle.report_reading.specs.LineSteps.{FaultsAs};
ghost use Rattle.report_reading.specs.ListSteps.{cert_in, edge_after, vertex_after, rule_after, with_item};

use crate::fields::{field_at, has_words};
use crate::names::edge_in;
use crate::numbers::{number_in, place_in};
use crate::order::is_above;
use crate::read_fault::LineFault::{self, Bad};
use crate::read_fault::ReadWhy::{BadForm, BadName, BadNumber, BadOrder};
use crate::trail_lines::{token_in, trail_in};
use dag_net::Ids;
use decomposition::Side;
use graph_text::Labels;
use report_terms::Cert;
use std::alloc::Global;

/// A certificate without its items, and the number of them.
pub(crate) fn cert_in(
    alloc: Global,
    labels: &Labels,
    fields: &[&[u8]],
) -> Result<(Cert, u64), LineFault>
    ensures ok { IfOk result (λ cert. cert_in labels.now (texts fields.now) ≡ Ok cert) }
    ensures err { IfErr result (FaultsAs (cert_in labels.now (texts fields.now))) }
{
    if has_words(fields, &[b"cert", b"none"], 2) {
        return Ok((Cert::Zero, 0));
    }
    if has_words(fields, &[b"cert", b"wide"], 3) {
        let count = number_in(0, u64::MAX, field_at(fields, 2)).ok_or(Bad(BadNumber))?;
        return Ok((Cert::Wide(Ids::new(alloc)), count));
    }
    if has_words(fields, &[b"cert", b"tree"], 5) {
        let (slots, limit) = (field_at(fields, 2), field_at(fields, 3));
        let (tree, count) = trail_in(alloc, slots, limit, field_at(fields, 4))?;
        return Ok((Cert::Tree(tree), count));
    }
    if has_words(fields, &[b"cert", b"cut", b"in"], 4) {
        let count = number_in(0, u64::MAX, field_at(fields, 3)).ok_or(Bad(BadNumber))?;
        return Ok((Cert::Cut(Side::Entering, Ids::new(alloc)), count));
    }
    if has_words(fields, &[b"cert", b"cut", b"out"], 4) {
        let count = number_in(0, u64::MAX, field_at(fields, 3)).ok_or(Bad(BadNumber))?;
        return Ok((Cert::Cut(Side::Leaving, Ids::new(alloc)), count));
    }
    if !has_words(fields, &[b"cert", b"crowd"], 5) {
        return Err(Bad(BadForm));
    }
    let count = number_in(0, u64::MAX, field_at(fields, 4)).ok_or(Bad(BadNumber))?;
    let edge = edge_in(labels, field_at(fields, 2), field_at(fields, 3)).ok_or(Bad(BadName))?;
    Ok((Cert::Crowd(edge, Ids::new(alloc)), count))
}

/// An edge, after those before it.
fn edge_after(labels: &Labels, edges: &[u32], fields: &[&[u8]]) -> Result<u32, LineFault>
    ensures ok { IfOk result (λ edge. edge_after labels.now edges.now (texts fields.now) ≡ Ok edge) }
    ensures err { IfErr result (FaultsAs (edge_after labels.now edges.now (texts fields.now))) }
{
    if !has_words(fields, &[b"edge"], 3) {
        return Err(Bad(BadForm));
    }
    match edge_in(labels, field_at(fields, 1), field_at(fields, 2)) {
        None => Err(Bad(BadName)),
        Some(edge) if is_above(edges, edge) => Ok(edge),
        Some(_) => Err(Bad(BadOrder)),
    }
}

/// A vertex, after those before it.
fn vertex_after(labels: &Labels, vertices: &[u32], fields: &[&[u8]]) -> Result<u32, LineFault>
    ensures ok { IfOk result (λ vertex. vertex_after labels.now vertices.now (texts fields.now) ≡ Ok vertex) }
    ensures err { IfErr result (FaultsAs (vertex_after labels.now vertices.now (texts fields.now))) }
{
    if !has_words(fields, &[b"vertex"], 2) {
        return Err(Bad(BadForm));
    }
    match labels.vertex(field_at(fields, 1)) {
        None => Err(Bad(BadName)),
        Some(vertex) if is_above(vertices, vertex) => Ok(vertex),
        Some(_) => Err(Bad(BadOrder)),
    }
}

/// A rule, after those before it.
fn rule_after(rules: &[u32], fields: &[&[u8]]) -> Result<u32, LineFault>
    ensures ok { IfOk result (λ rule. rule_after rules.now (texts fields.now) ≡ Ok rule) }
    ensures err { IfErr result (FaultsAs (rule_after rules.now (texts fields.now))) }
{
    if !has_words(fields, &[b"rule"], 2) {
        return Err(Bad(BadForm));
    }
    match place_in(field_at(fields, 1)) {
        None => Err(Bad(BadNumber)),
        Some(rule) if is_above(rules, rule) => Ok(rule),
        Some(_) => Err(Bad(BadOrder)),
    }
}

/// Adds an item to a certificate.
pub(crate) fn add_item(labels: &Labels, cert: &mut Cert, fields: &[&[u8]]) -> Result<(), LineFault>
    ensures ok { OnOk result (with_item labels.now cert.old (texts fields.now) ≡ Ok cert.new) }
    ensures err { IfErr result (FaultsAs (with_item labels.now cert.old (texts fields.now))) }
{
    match cert {
        Cert::Zero => return Err(Bad(BadForm)),
        Cert::Wide(edges) => edges.push(edge_after(labels, edges.as_slice(), fields)?)?,
        Cert::Tree(tree) => tree.tokens.push(token_in(fields)?)?,
        Cert::Cut(_, vertices) => {
            vertices.push(vertex_after(labels, vertices.as_slice(), fields)?)?
        }
        Cert::Crowd(_, rules) => rules.push(rule_after(rules.as_slice(), fields)?)?,
    }
    Ok(())
}
