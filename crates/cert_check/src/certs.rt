//! The line of the certificate.

ghost use Rattle.std.specs.Prelude.{◌≡◌, ◌↔◌, ◌<◌, ◌^◌, length, IsTrue, IfOk};
ghost use Rattle.std.specs.List.{list_all};
ghost use Rattle.decomposition.specs.Graph.{edge_count, is_run};
ghost use Rattle.decomposition.specs.Instance.{greatest_hi, IsInstance};
ghost use Rattle.decomposition.specs.Tokens.{IsRefutation};
ghost use Rattle.flow_models.specs.Problem.{instance};
ghost use Rattle.report_terms.specs.declared.report.Cert.TheVariants.{Wide, Tree};
ghost use Rattle.cert_check.specs.Accepted.{ShowsBound, ShowsNone};
ghost use Rattle.cert_check.specs.Verdict.{token_count, Holds};
ghost use Rattle.cert_check.specs.Verdict.Line.{CertLine};

use crate::crowd::check_crowd;
use crate::cut::check_cut;
use crate::decisions::{counts_paths, is_at_all, is_below, is_in_reach};
use crate::tree::check_tree;
use crate::wide::check_wide;
use dag_net::{Mode, Net};
use flow_models::Problem;
use report_terms::{Cert, Mark, Solved, Trail};
use std::alloc::{AllocError, Global};

/// Whether the tokens refute the decision.
fn refutes(alloc: Global, net: &Net, p: &Problem, tree: &Trail) -> Result<bool, AllocError>
    requires ranged { length p.now.ranges ≡ edge_count net.now }
    requires rules { IsTrue (list_all (is_run net.now) p.now.rules) }
    requires cap { p.now.cap ≡ greatest_hi p.now.ranges }
    requires few { length tree.now.tokens < 2 ^ 32 }
    ensures { IfOk result (λ refutes. IsTrue refutes ↔ IsRefutation (instance net.now p.now) tree.now.decision tree.now.tokens) }
{
    let verdict = check_tree(alloc, net, p, &tree.decision, tree.tokens.as_slice())?;
    Ok(verdict.refutes())
}

/// Whether an antichain of as many edges as the lower bound shows it.
fn wide_shows_bound(net: &Net, p: &Problem, mode: &Mode, lower: u64, edges: &[u32]) -> bool
    requires { length p.now.ranges ≡ edge_count net.now }
    ensures { IsTrue result ↔ ShowsBound mode.now (instance net.now p.now) lower (Wide edges.now) }
{
    counts_paths(mode) && edges.len() as u64 == lower && check_wide(net, p, edges)
}

/// Whether a tree that refutes the decision below the lower bound shows it.
fn tree_shows_bound(
    alloc: Global,
    net: &Net,
    p: &Problem,
    mode: &Mode,
    lower: u64,
    tree: &Trail,
) -> Result<bool, AllocError>
    requires valid { IsInstance mode.now (instance net.now p.now) }
    requires cap { p.now.cap ≡ greatest_hi p.now.ranges }
    requires few { length tree.now.tokens < 2 ^ 32 }
    ensures { IfOk result (λ shows. IsTrue shows ↔ ShowsBound mode.now (instance net.now p.now) lower (Tree tree.now)) }
{
    if lower == 0 || !is_in_reach(net, p, mode, lower) || !is_below(mode, lower, &tree.decision) {
        return Ok(false);
    }
    refutes(alloc, net, p, tree)
}

/// Whether a tree that refutes the decision for anything that meets shows that nothing does.
fn tree_shows_none(
    alloc: Global,
    net: &Net,
    p: &Problem,
    mode: &Mode,
    tree: &Trail,
) -> Result<bool, AllocError>
    requires valid { IsInstance mode.now (instance net.now p.now) }
    requires cap { p.now.cap ≡ greatest_hi p.now.ranges }
    requires few { length tree.now.tokens < 2 ^ 32 }
    ensures { IfOk result (λ shows. IsTrue shows ↔ ShowsNone mode.now (instance net.now p.now) (Tree tree.now)) }
{
    if !is_at_all(net, p, mode, &tree.decision) {
        return Ok(false);
    }
    refutes(alloc, net, p, tree)
}

/// Whether the certificate shows the lower bound.
fn shows_bound(
    alloc: Global,
    net: &Net,
    p: &Problem,
    mode: &Mode,
    lower: u64,
    cert: &Cert,
) -> Result<bool, AllocError>
    requires valid { IsInstance mode.now (instance net.now p.now) }
    requires cap { p.now.cap ≡ greatest_hi p.now.ranges }
    requires few { token_count cert.now < 2 ^ 32 }
    ensures { IfOk result (λ shows. IsTrue shows ↔ ShowsBound mode.now (instance net.now p.now) lower cert.now) }
{
    match cert {
        Cert::Zero => Ok(lower == 0),
        Cert::Wide(edges) => Ok(wide_shows_bound(net, p, mode, lower, edges.as_slice())),
        Cert::Tree(tree) => tree_shows_bound(alloc, net, p, mode, lower, tree),
        Cert::Cut(_, _) | Cert::Crowd(_, _) => Ok(false),
    }
}

/// Whether the certificate shows that nothing meets.
fn shows_none(
    alloc: Global,
    net: &Net,
    p: &Problem,
    mode: &Mode,
    cert: &Cert,
) -> Result<bool, AllocError>
    requires valid { IsInstance mode.now (instance net.now p.now) }
    requires cap { p.now.cap ≡ greatest_hi p.now.ranges }
    requires few { token_count cert.now < 2 ^ 32 }
    ensures { IfOk result (λ shows. IsTrue shows ↔ ShowsNone mode.now (instance net.now p.now) cert.now) }
{
    match cert {
        Cert::Zero | Cert::Wide(_) => Ok(false),
        Cert::Tree(tree) => tree_shows_none(alloc, net, p, mode, tree),
        Cert::Cut(side, vertices) => {
            Ok(counts_paths(mode) && check_cut(net, p, *side, vertices.as_slice()))
        }
        Cert::Crowd(edge, rules) => {
            Ok(counts_paths(mode) && check_crowd(net, p, *edge, rules.as_slice()))
        }
    }
}

/// Whether the certificate shows what the mark wants: the lower bound, or that nothing meets.
pub fn cert_fits(
    alloc: Global,
    net: &Net,
    p: &Problem,
    mode: &Mode,
    solved: &Solved,
) -> Result<bool, AllocError>
    requires valid { IsInstance mode.now (instance net.now p.now) }
    requires cap { p.now.cap ≡ greatest_hi p.now.ranges }
    requires few { token_count solved.now.cert < 2 ^ 32 }
    ensures { IfOk result (λ fits. IsTrue fits ↔ Holds mode.now (instance net.now p.now) solved.now CertLine) }
{
    if solved.mark == Mark::Infeasible {
        return shows_none(alloc, net, p, mode, &solved.cert);
    }
    match solved.lower {
        None => Ok(false),
        Some(lower) => shows_bound(alloc, net, p, mode, lower, &solved.cert),
    }
}
