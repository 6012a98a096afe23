//! The lines of the upper bound and of the paths.

ghost use Rattle.std.specs.Prelude.{◌≡◌, ◌≢◌, ◌↔◌, ◌<◌, ◌^◌, length, AllPairs, IsTrue, IfOk};
ghost use Rattle.decomposition.specs.Graph.{edge_count};
ghost use Rattle.decomposition.specs.Answer.{IsAnswer};
ghost use Rattle.flow_models.specs.Problem.{instance};
ghost use Rattle.cert_check.specs.Verdict.{Holds};
ghost use Rattle.cert_check.specs.Verdict.Line.{UpperLine};

use dag_net::{Answer, Mode, Net};
use flow_models::{Problem, meets, objective};
use report_terms::Solved;
use std::alloc::{AllocError, Global};
use std::collections::BTreeSet;

/// Whether each entry is a path of the net.
pub fn are_paths(net: &Net, paths: &Answer) -> bool
    ensures { IsTrue result ↔ IsAnswer net.now paths.now }
{
    for i in 0..paths.len() {
        if !net.is_path(paths.path(i).as_slice()) {
            return false;
        }
    }
    true
}

/// Whether no path stands twice.
fn are_distinct(alloc: Global, paths: &Answer) -> Result<bool, AllocError>
    ensures { IfOk result (λ distinct. IsTrue distinct ↔ AllPairs (λ a b. a.0 ≢ b.0) paths.now) }
{
    let mut seen = BTreeSet::new(alloc);
    for i in 0..paths.len() {
        let path = paths.path(i).as_slice();
        if !seen.insert(path)? {
            return Ok(false);
        }
    }
    Ok(true)
}

/// Whether there are no paths where there is no upper bound, and else they are paths of the net, none twice, that meet the
/// model, and their value is the bound.
pub fn paths_fit(
    alloc: Global,
    net: &Net,
    p: &Problem,
    mode: &Mode,
    solved: &Solved,
) -> Result<bool, AllocError>
    requires ranged { length p.now.ranges ≡ edge_count net.now }
    requires few { length solved.now.paths < 2 ^ 32 }
    ensures { IfOk result (λ fits. IsTrue fits ↔ Holds mode.now (instance net.now p.now) solved.now UpperLine) }
{
    let paths = &solved.paths;
    let Some(upper) = solved.upper else {
        return Ok(paths.len() == 0);
    };
    if !are_paths(net, paths) || !are_distinct(alloc, paths)? {
        return Ok(false);
    }
    Ok(meets(net, p, mode, paths) && objective(net, p, mode, paths) == u128::from(upper))
}
