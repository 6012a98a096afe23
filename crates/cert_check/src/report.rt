//! Reports: whether what a report says of a graph is shown by the report itself.

ghost use Rattle.std.specs.Prelude.{◌≡◌, ◌↔◌, IfOk};
ghost use Rattle.decomposition.specs.Instance.{greatest_hi, IsInstance};
ghost use Rattle.flow_models.specs.Problem.{instance};
ghost use Rattle.cert_check.specs.Verdict.{IsSolvedVerdict, IsVerdictOn, IsAccepted, IsShort, IsShortBody};
ghost use Rattle.cert_check.specs.True.{IsTrueReport};
ghost use Rattle.cert_check.specs.declared.report.Verdict.TheVariants.{Yes};

use crate::certs::cert_fits;
use crate::lines::{cert_place, safe_place, trail_place};
use crate::marks::mark_fits;
use crate::paths::paths_fit;
use crate::safe_runs::safe_fits;
use crate::trails::trail_fits;
use dag_net::{Mode, Net};
use flow_models::Problem;
use report_terms::{Body, Report, Solved};
use std::alloc::{AllocError, Global};

/// What a report is for a problem of a model.
#[derive(Clone, Copy, Debug, PartialEq, Eq)]
pub enum Verdict {
    /// The clause of each line holds.
    Yes,
    /// The clause of the line with this number, counted from 1, fails, and those of the lines above it hold.
    No { line: u64 },
}

/// What was found, line by line.
fn check_solved(
    alloc: Global,
    net: &Net,
    p: &Problem,
    mode: &Mode,
    solved: &Solved,
) -> Result<Verdict, AllocError>
    requires valid { IsInstance mode.now (instance net.now p.now) }
    requires cap { p.now.cap ≡ greatest_hi p.now.ranges }
    requires few { IsShort solved.now }
    ensures { IfOk result (IsSolvedVerdict mode.now (instance net.now p.now) solved.now) }
{
    let line = if !mark_fits(solved.mark, solved.lower, solved.upper) {
        3
    } else if !paths_fit(alloc, net, p, mode, solved)? {
        5
    } else if !cert_fits(alloc, net, p, mode, solved)? {
        cert_place(solved)
    } else if !trail_fits(alloc, net, p, mode, solved)? {
        trail_place(solved)
    } else if !safe_fits(alloc, net, p, mode, solved)? {
        safe_place(solved)
    } else {
        return Ok(Verdict::Yes);
    };
    Ok(Verdict::No { line })
}

/// Goes over the lines of a report, and stops at the first whose clause fails. A yes shows that all that the report
/// says is true: its paths meet the model, its bounds hold, and the runs that it lists are the maximal safe ones.
/// Nothing is searched for: each certificate is gone over once.
pub fn check_report(
    alloc: Global,
    net: &Net,
    p: &Problem,
    mode: &Mode,
    report: &Report,
) -> Result<Verdict, AllocError>
    requires valid { IsInstance mode.now (instance net.now p.now) }
    requires cap { p.now.cap ≡ greatest_hi p.now.ranges }
    requires few { IsShortBody report.now.body }
    ensures exact { IfOk result (IsVerdictOn mode.now (instance net.now p.now) report.now) }
    ensures yes { IfOk result (λ v. (v ≡ Yes) ↔ IsAccepted mode.now (instance net.now p.now) report.now) }
    ensures right { IfOk result (λ v. v ≡ Yes → IsTrueReport mode.now (instance net.now p.now) report.now.body) }
{
    if report.mode != *mode {
        return Ok(Verdict::No { line: 2 });
    }
    match &report.body {
        Body::Refused(_) => Ok(Verdict::No { line: 3 }),
        Body::Solved(solved) => check_solved(alloc, net, p, mode, solved),
    }
}
