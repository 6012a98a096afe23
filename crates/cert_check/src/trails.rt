//! The line of the trail.

ghost use Rattle.std.specs.Prelude.{◌≡◌, ◌↔◌, ◌<◌, ◌≤◌, ◌^◌, length, IsTrue, IfOk, IfSome, IsSomeAnd};
ghost use Rattle.std.specs.List.{list_all};
ghost use Rattle.decomposition.specs.Graph.{edge_count, is_run};
ghost use Rattle.decomposition.specs.Instance.{greatest_hi, IsInstance};
ghost use Rattle.decomposition.specs.Tokens.{IsTrail};
ghost use Rattle.flow_models.specs.Problem.{instance};
ghost use Rattle.cert_check.specs.Accepted.{IsAsked, LeavesOpen};
ghost use Rattle.cert_check.specs.Verdict.{trail_lines, Holds};
ghost use Rattle.cert_check.specs.Verdict.Line.{TrailLine};

use crate::decisions::{is_at_all, is_below};
use crate::tree::check_tree;
use dag_net::{Mode, Net};
use decomposition::Decision;
use flow_models::Problem;
use report_terms::{Mark, Solved, Trail};
use std::alloc::{AllocError, Global};

/// Whether the limit is at least the lower bound, if there is one, and below the upper bound.
fn lies_between(lower: Option<u64>, upper: u64, limit: Option<u64>) -> bool
    ensures { IsTrue result ↔ IsSomeAnd limit (λ l. IfSome lower (λ n. n ≤ l) × (l < upper)) }
{
    match limit {
        None => false,
        Some(limit) => lower.unwrap_or(0) <= limit && limit < upper,
    }
}

/// Whether the decision asks for less than the upper bound, or for anything that meets where there is none.
fn is_asked(
    net: &Net,
    p: &Problem,
    mode: &Mode,
    lower: Option<u64>,
    upper: Option<u64>,
    d: &Decision,
) -> bool
    ensures { IsTrue result ↔ IsAsked mode.now (instance net.now p.now) lower upper d.now }
{
    let Some(upper) = upper else {
        return is_at_all(net, p, mode, d);
    };
    match *mode {
        Mode::Exact | Mode::Interval => is_below(mode, upper, d),
        Mode::Abs { k } => d.slots == k && lies_between(lower, upper, d.limit),
    }
}

/// Whether the tokens are legal and leave a box.
fn leaves_open(alloc: Global, net: &Net, p: &Problem, trail: &Trail) -> Result<bool, AllocError>
    requires ranged { length p.now.ranges ≡ edge_count net.now }
    requires rules { IsTrue (list_all (is_run net.now) p.now.rules) }
    requires cap { p.now.cap ≡ greatest_hi p.now.ranges }
    requires few { length trail.now.tokens < 2 ^ 32 }
    ensures { IfOk result (λ leaves. IsTrue leaves ↔ IsTrail (instance net.now p.now) trail.now.decision trail.now.tokens) }
{
    let verdict = check_tree(alloc, net, p, &trail.decision, trail.tokens.as_slice())?;
    Ok(verdict.leaves_open())
}

/// Whether the tokens are legal for the decision that is asked under the bounds, and leave a box.
fn leaves_open_between(
    alloc: Global,
    net: &Net,
    p: &Problem,
    mode: &Mode,
    solved: &Solved,
    trail: &Trail,
) -> Result<bool, AllocError>
    requires valid { IsInstance mode.now (instance net.now p.now) }
    requires cap { p.now.cap ≡ greatest_hi p.now.ranges }
    requires few { length trail.now.tokens < 2 ^ 32 }
    ensures { IfOk result (λ leaves. IsTrue leaves ↔ LeavesOpen mode.now (instance net.now p.now) solved.now.lower solved.now.upper trail.now) }
{
    if !is_asked(net, p, mode, solved.lower, solved.upper, &trail.decision) {
        return Ok(false);
    }
    leaves_open(alloc, net, p, trail)
}

/// Whether there is a trail exactly with the mark bounds, and it leaves open what lies below the upper bound.
pub fn trail_fits(
    alloc: Global,
    net: &Net,
    p: &Problem,
    mode: &Mode,
    solved: &Solved,
) -> Result<bool, AllocError>
    requires valid { IsInstance mode.now (instance net.now p.now) }
    requires cap { p.now.cap ≡ greatest_hi p.now.ranges }
    requires few { trail_lines solved.now.trail ≤ 2 ^ 32 }
    ensures { IfOk result (λ fits. IsTrue fits ↔ Holds mode.now (instance net.now p.now) solved.now TrailLine) }
{
    match solved.mark {
        Mark::Optimal | Mark::Infeasible => Ok(solved.trail.is_none()),
        Mark::Bounds => match &solved.trail {
            None => Ok(false),
            Some(trail) => leaves_open_between(alloc, net, p, mode, solved, trail),
        },
    }
}
