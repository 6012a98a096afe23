//! The error and the objective of an answer, and whether it meets its model.

ghost use Rattle.std.specs.Prelude.{◌≡◌, ◌↔◌, ◌^◌, ◌<◌, length, IsTrue};
ghost use Rattle.decomposition.specs.Graph.{edge_count};
ghost use Rattle.decomposition.specs.Answer.{IsAnswer};
ghost use Rattle.decomposition.specs.Instance.{distance, error, Meets, objective};
ghost use Rattle.flow_models.specs.Problem.{instance};

use crate::problem::Problem;
use crate::weights::weight_through;
use dag_net::{Answer, Mode, Net, Range};

/// How far a number lies outside a range.
fn distance(range: Range, x: u128) -> u128
    requires { x < 2 ^ 96 }
    ensures distance { result ≡ distance range x }
    ensures small { result < 2 ^ 97 }
{
    u128::from(range.lo).saturating_sub(x) + x.saturating_sub(u128::from(range.hi))
}

/// The sum over all edges of how far the weight on the edge lies outside its range.
pub fn error_of(net: &Net, p: &Problem, a: &Answer) -> u128
    requires ranged { length p.now.ranges ≡ edge_count net.now }
    requires answer { IsAnswer net.now a.now }
    requires few { length a.now < 2 ^ 32 }
    ensures { result ≡ error (instance net.now p.now) a.now }
{
    let mut error = 0u128;
    for e in 0..net.edges() {
        error += distance(p.ranges.get(e as usize), weight_through(net, a, e));
    }
    error
}

/// Whether the answer covers the rules, and its error is 0 or it has few enough paths.
pub fn meets(net: &Net, p: &Problem, mode: &Mode, a: &Answer) -> bool
    requires ranged { length p.now.ranges ≡ edge_count net.now }
    requires answer { IsAnswer net.now a.now }
    requires few { length a.now < 2 ^ 32 }
    ensures { IsTrue result ↔ Meets mode.now (instance net.now p.now) a.now }
{
    p.rules.covered(a)
        && match *mode {
            Mode::Exact | Mode::Interval => error_of(net, p, a) == 0,
            Mode::Abs { k } => a.len() <= k as usize,
        }
}

/// What is to be least: the number of paths, or the error.
pub fn objective(net: &Net, p: &Problem, mode: &Mode, a: &Answer) -> u128
    requires ranged { length p.now.ranges ≡ edge_count net.now }
    requires answer { IsAnswer net.now a.now }
    requires few { length a.now < 2 ^ 32 }
    ensures { result ≡ objective mode.now (instance net.now p.now) a.now }
{
    match *mode {
        Mode::Exact | Mode::Interval => a.len() as u128,
        Mode::Abs { k: _ } => error_of(net, p, a),
    }
}
