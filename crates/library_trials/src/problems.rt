//! Problems without rules.

ghost use Rattle.std.specs.Prelude.{◌≡◌, length, IfOk, IsTrue};
ghost use Rattle.std.specs.List.{list_all};
ghost use Rattle.decomposition.specs.Graph.{edge_count, is_run};
ghost use Rattle.decomposition.specs.Instance.{greatest_hi};

use dag_net::{IdLists, Net, Range, Ranges};
use flow_models::Problem;
use std::alloc::Global;
use std::test::Fail;
use subpath_rules::Rules;

/// Two ways from a source to a sink.
pub const SQUARE: [(u32, u32); 4] = [(0, 1), (0, 2), (1, 3), (2, 3)];

/// Two ways from a source to a vertex, and two from there to a sink.
pub const DIAMONDS: [(u32, u32); 8] = [
    (0, 1),
    (1, 2),
    (0, 3),
    (3, 2),
    (2, 4),
    (4, 5),
    (2, 6),
    (6, 5),
];

/// A flow on the diamonds that two paths cannot make up, and three can.
pub const DIAMONDS_FLOW: [(u64, u64); 8] = [
    (5, 5),
    (5, 5),
    (2, 2),
    (2, 2),
    (4, 4),
    (4, 4),
    (3, 3),
    (3, 3),
];

/// The problem with these least and greatest weights, one of each for each edge.
pub fn problem(alloc: Global, net: &Net, bounds: &[(u64, u64)]) -> Result<Problem, Fail>
    ensures ranged { IfOk result (λ p. length p.ranges ≡ edge_count net.now) }
    ensures rules { IfOk result (λ p. IsTrue (list_all (is_run net.now) p.rules)) }
    ensures cap { IfOk result (λ p. p.cap ≡ greatest_hi p.ranges) }
{
    let mut ranges = Ranges::new(alloc);
    for &(lo, hi) in bounds {
        ranges.push(Range { lo, hi })?;
    }
    if ranges.len() != net.edges() as usize {
        return Err(Fail::new("one range for each edge is wanted"));
    }
    let rules = Rules::build(alloc, net, &IdLists::new(alloc))?;
    Ok(Problem::new(net, ranges, rules))
}
