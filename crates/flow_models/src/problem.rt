//! Problems: what an answer has to meet.

ghost use Rattle.std.specs.Prelude.{◌≡◌};
ghost use Rattle.decomposition.specs.Instance.{greatest_hi};

use dag_net::{Net, Range, Ranges};
use subpath_rules::Rules;

/// A range for each edge, the runs that must be covered, and the greatest of 1 and all upper bounds.
#[derive(Debug, Drop)]
pub struct Problem {
    pub ranges: Ranges,
    pub rules: Rules,
    pub cap: u64,
}

/// The greatest of 1 and all upper bounds.
fn cap_of(ranges: &[Range]) -> u64
    ensures { result ≡ greatest_hi ranges.now }
{
    let mut cap = 1;
    for range in ranges {
        cap = cap.max(range.hi);
    }
    cap
}

impl Problem {
    /// The problem with these ranges and rules. The net is the one that both are for.
    pub fn new(_net: &Net, ranges: Ranges, rules: Rules) -> Problem
        ensures ranges { result.ranges ≡ ranges }
        ensures rules { result.rules ≡ rules }
        ensures cap { result.cap ≡ greatest_hi ranges }
    {
        let cap = cap_of(ranges.as_slice());
        Problem { ranges, rules, cap }
    }
}
