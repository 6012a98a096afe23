//! What may be said of a graph, as reports, and problems that are valid.

ghost use Rattle.std.specs.Prelude.{◌≡◌, ◌<◌, ◌≤◌, ◌==◌, ◌&&◌, nat_le, length, map, IfOk, IsTrue};
ghost use Rattle.std.specs.List.{list_all};
ghost use Rattle.decomposition.specs.Graph.{edge_count};
ghost use Rattle.decomposition.specs.Flow.{IsBalanced};
ghost use Rattle.decomposition.specs.Instance.{range_at, greatest_hi, FitsModel, IsInstance};
ghost use Rattle.flow_models.specs.Problem.{instance};
ghost use Rattle.cert_check.specs.Verdict.{IsShort, token_count, trail_lines};

use crate::certs::ruled_problem;
use cert_check::{Verdict, check_report};
use dag_net::{Answer, IdLists, Ids, Net, Range, Ranges};
use decomposition::{Decision, Mode, Side, Token};
use flow_io::Bytes;
use flow_models::Problem;
use report_terms::{Body, Cert, Mark, Report, Solved, Tokens, Trail};
use std::alloc::{AllocError, Global};
use std::test::Fail;

/// The slots and the limit of a decision, and tokens for it.
pub type Tree<'a> = (u32, Option<u64>, &'a [Token]);

/// What is shown as a certificate.
#[derive(Clone, Copy)]
pub enum Shown<'a> {
    Zero,
    Wide(&'a [u32]),
    Tree(Tree<'a>),
    Cut(Side, &'a [u32]),
    Crowd(u32, &'a [u32]),
}

/// What is said of a graph.
#[derive(Clone, Copy)]
pub struct Claim<'a> {
    pub mark: Mark,
    pub lower: Option<u64>,
    pub upper: Option<u64>,
    pub paths: &'a [(&'a [u32], u64)],
    pub cert: Shown<'a>,
    pub trail: Option<Tree<'a>>,
    pub safe: Option<&'a [&'a [u32]]>,
}

/// The numbers as a list, of which there must be few.
fn ids(alloc: Global, numbers: &[u32]) -> Result<Ids, Fail>
    ensures { IfOk result (λ ids. length ids < 99) }
{
    let mut ids = Ids::new(alloc);
    for &number in numbers {
        ids.push(number)?;
    }
    if ids.len() < 99 {
        Ok(ids)
    } else {
        Err(Fail::new("fewer numbers are wanted"))
    }
}

/// The lists as a list, of which each must be short.
fn id_lists(alloc: Global, lists: &[&[u32]]) -> Result<IdLists, Fail> {
    let mut all = IdLists::new(alloc);
    for &list in lists {
        all.push(ids(alloc, list)?)?;
    }
    Ok(all)
}

/// The paths with their weights, of which there must be few.
fn answer(alloc: Global, paths: &[(&[u32], u64)]) -> Result<Answer, Fail>
    ensures { IfOk result (λ answer. length answer < 99) }
{
    let mut answer = Answer::new(alloc);
    for &(path, weight) in paths {
        answer.push(ids(alloc, path)?, weight.max(1))?;
    }
    if answer.len() < 99 {
        Ok(answer)
    } else {
        Err(Fail::new("fewer paths are wanted"))
    }
}

/// The decision and its tokens, of which there must be few.
fn trail(alloc: Global, tree: Tree) -> Result<Trail, Fail>
    ensures { IfOk result (λ trail. length trail.tokens < 99) }
{
    let (slots, limit, listed) = tree;
    let mut tokens = Tokens::new(alloc);
    for &token in listed {
        tokens.push(token)?;
    }
    if tokens.len() < 99 {
        let decision = Decision { slots, limit };
        Ok(Trail { decision, tokens })
    } else {
        Err(Fail::new("fewer tokens are wanted"))
    }
}

/// The certificate that is shown.
fn cert(alloc: Global, shown: Shown) -> Result<Cert, Fail>
    ensures { IfOk result (λ cert. token_count cert < 99) }
{
    match shown {
        Shown::Zero => Ok(Cert::Zero),
        Shown::Wide(edges) => Ok(Cert::Wide(ids(alloc, edges)?)),
        Shown::Tree(tree) => Ok(Cert::Tree(trail(alloc, tree)?)),
        Shown::Cut(side, vertices) => Ok(Cert::Cut(side, ids(alloc, vertices)?)),
        Shown::Crowd(edge, rules) => Ok(Cert::Crowd(edge, ids(alloc, rules)?)),
    }
}

/// The trail of a claim, if it has one.
fn trail_of(alloc: Global, claim: &Claim) -> Result<Option<Trail>, Fail>
    ensures { IfOk result (λ trail. trail_lines trail ≤ 99) }
{
    match claim.trail {
        None => Ok(None),
        Some(tree) => Ok(Some(trail(alloc, tree)?)),
    }
}

/// The safe runs of a claim, if it has some.
fn safe_of(alloc: Global, claim: &Claim) -> Result<Option<IdLists>, Fail> {
    match claim.safe {
        None => Ok(None),
        Some(runs) => Ok(Some(id_lists(alloc, runs)?)),
    }
}

/// What is claimed, as a report has it.
fn solved(alloc: Global, claim: &Claim) -> Result<Solved, Fail>
    ensures { IfOk result IsShort }
{
    Ok(Solved {
        mark: claim.mark,
        lower: claim.lower,
        upper: claim.upper,
        paths: answer(alloc, claim.paths)?,
        cert: cert(alloc, claim.cert)?,
        trail: trail_of(alloc, claim)?,
        safe: safe_of(alloc, claim)?,
    })
}

/// A report of a model.
pub fn report(alloc: Global, mode: Mode, body: Body) -> Report
    ensures { result.body ≡ body }
{
    Report {
        index: 1,
        name: Bytes::from_vec(Vec::new(alloc)),
        mode,
        body,
    }
}

/// The verdict on a report of what is claimed.
pub fn verdict_on(
    alloc: Global,
    net: &Net,
    p: &Problem,
    mode: Mode,
    claim: &Claim,
) -> Result<Verdict, Fail>
    requires valid { IsInstance mode (instance net.now p.now) }
    requires cap { p.now.cap ≡ greatest_hi p.now.ranges }
{
    let report = report(alloc, mode, Body::Solved(solved(alloc, claim)?));
    Ok(check_report(alloc, net, p, &mode, &report)?)
}

/// Whether the bounds of each range are in order and small.
fn are_bounded(ranges: &[Range]) -> bool
    ensures { result ≡ list_all (λ r. nat_le r.lo r.hi && nat_le r.hi 1000000000000) ranges.now }
{
    ranges
        .iter()
        .all(|r| r.lo <= r.hi && r.hi <= 1_000_000_000_000)
}

/// Whether the bounds of each range are equal.
fn are_weights(ranges: &[Range]) -> bool
    ensures { result ≡ list_all (λ r. r.lo == r.hi) ranges.now }
{
    ranges.iter().all(|r| r.lo == r.hi)
}

/// The lower bound of each range.
fn lower_bounds(alloc: Global, ranges: &Ranges) -> Result<Vec<u64>, AllocError>
    ensures { IfOk result (λ bounds. bounds.items ≡ map (λ range. range.lo) ranges.now) }
{
    ranges
        .as_slice()
        .iter()
        .map(|range| range.lo)
        .collect(alloc)
}

/// Whether the lower bounds are at most so large, and balanced at each inner vertex.
fn are_balanced(alloc: Global, net: &Net, ranges: &Ranges) -> Result<bool, AllocError>
    requires { length ranges.now ≡ edge_count net.now }
    ensures { IfOk result (λ balanced. IsTrue balanced → IsBalanced net.now (λ e. (range_at ranges.now e).lo)) }
{
    let flow = lower_bounds(alloc, ranges)?;
    if !flow.iter().all(|&w| w <= 1_000_000_000_000) {
        return Ok(false);
    }
    let unbalanced = net.first_unbalanced(alloc, &flow)?;
    match unbalanced {
        None => Ok(true),
        Some(_) => Ok(false),
    }
}

/// Whether the ranges are what the model asks for.
fn fit_model(alloc: Global, net: &Net, p: &Problem, mode: Mode) -> Result<bool, AllocError>
    requires { length p.now.ranges ≡ edge_count net.now }
    ensures { IfOk result (λ fit. IsTrue fit → FitsModel mode (instance net.now p.now)) }
{
    let equal = are_weights(p.ranges.as_slice());
    match mode {
        Mode::Exact => {
            let balanced = are_balanced(alloc, net, &p.ranges)?;
            Ok(equal && balanced)
        }
        Mode::Interval => Ok(true),
        Mode::Abs { k: _ } => Ok(equal),
    }
}

/// The problem with these least and greatest weights and these rules, which is valid for the model.
pub fn valid_problem(
    alloc: Global,
    net: &Net,
    mode: Mode,
    bounds: &[(u64, u64)],
    listed: &[[u32; 2]],
) -> Result<Problem, Fail>
    ensures valid { IfOk result (λ p. IsInstance mode (instance net.now p)) }
    ensures cap { IfOk result (λ p. p.cap ≡ greatest_hi p.ranges) }
{
    let p = ruled_problem(alloc, net, bounds, listed)?;
    let fit = fit_model(alloc, net, &p, mode)?;
    prove!(net.edges() <= 4096);
    if fit && are_bounded(p.ranges.as_slice()) {
        Ok(p)
    } else {
        Err(Fail::new("a valid problem is wanted"))
    }
}
