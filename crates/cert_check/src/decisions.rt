//! The decisions of certificates and trails.

ghost use Rattle.std.specs.Prelude.{◌≡◌, ◌+◌, ◌↔◌, length, IsTrue};
ghost use Rattle.decomposition.specs.Graph.{edge_count};
ghost use Rattle.decomposition.specs.Instance.{Instance};
ghost use Rattle.decomposition.specs.Certificates.{decision_below, decision_at_all, IsInReach};
ghost use Rattle.flow_models.specs.Problem.{instance};
ghost use Rattle.cert_check.specs.Accepted.{CountsPaths};

use dag_net::{Mode, Net};
use decomposition::Decision;
use flow_models::Problem;

/// Whether the number of paths is what is to be least.
pub fn counts_paths(mode: &Mode) -> bool
    ensures { IsTrue result ↔ CountsPaths mode.now }
{
    match *mode {
        Mode::Exact | Mode::Interval => true,
        Mode::Abs { k: _ } => false,
    }
}

/// The number of edges and rules.
fn most_paths(net: &Net, p: &Problem) -> u64
    ensures { result ≡ edge_count net.now + length p.now.rules }
{
    u64::from(net.edges()) + u64::from(p.rules.len())
}

/// Whether a lower bound needs no more paths than edges and rules, where paths are counted.
pub fn is_in_reach(net: &Net, p: &Problem, mode: &Mode, lower: u64) -> bool
    ensures { IsTrue result ↔ IsInReach mode.now (instance net.now p.now) lower }
{
    match *mode {
        Mode::Exact | Mode::Interval => lower <= most_paths(net, p),
        Mode::Abs { k: _ } => true,
    }
}

/// Whether the decision asks for less than a bound.
pub fn is_below(mode: &Mode, bound: u64, d: &Decision) -> bool
    ensures { (i : Instance) → IsTrue result ↔ (d.now ≡ decision_below mode.now i bound) }
{
    let less = bound.saturating_sub(1);
    match *mode {
        Mode::Exact | Mode::Interval => u64::from(d.slots) == less && d.limit == Some(0),
        Mode::Abs { k } => d.slots == k && d.limit == Some(less),
    }
}

/// Whether the decision asks for anything that meets.
pub fn is_at_all(net: &Net, p: &Problem, mode: &Mode, d: &Decision) -> bool
    ensures { IsTrue result ↔ (d.now ≡ decision_at_all mode.now (instance net.now p.now)) }
{
    match *mode {
        Mode::Exact | Mode::Interval => {
            u64::from(d.slots) == most_paths(net, p) && d.limit == Some(0)
        }
        Mode::Abs { k } => d.slots == k && d.limit.is_none(),
    }
}
