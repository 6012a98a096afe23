//! The order of paths in a report, and whether a path stands twice.

ghost use Rattle.std.specs.Prelude.{◌≡◌, ◌≢◌, ◌↔◌, AllPairs, IsTrue, IfOk};
ghost use Rattle.std.specs.Ordering.{nat_cmp};
ghost use Rattle.std.specs.Cmp.Lexicographic.{slice_cmp};
ghost use Rattle.decomposition.specs.Answer.{is_ordered};
ghost use Rattle.path_slack.specs.Reported.{comes_before};

use slack_terms::{SlackPath, Slacked};
use std::alloc::{AllocError, Global};
use std::cmp::Ordering;
use std::collections::BTreeSet;

/// Compares two entries by their paths.
fn path_order(a: &SlackPath, b: &SlackPath) -> Ordering
    ensures { result ≡ slice_cmp nat_cmp a.now.path b.now.path }
{
    a.path.as_slice().cmp(b.path.as_slice())
}

/// Whether an entry stands before another: by falling weight, then falling slack, then rising edge list.
fn comes_before(a: &SlackPath, b: &SlackPath) -> bool
    ensures { result ≡ comes_before a.now b.now }
{
    if a.weight != b.weight {
        return a.weight > b.weight;
    }
    if a.slack != b.slack {
        return a.slack > b.slack;
    }
    path_order(a, b).is_lt()
}

/// Whether each entry stands before the next one.
pub fn are_in_order(paths: &Slacked) -> bool
    ensures { result ≡ is_ordered comes_before paths.now }
{
    for i in 1..paths.len() {
        if !comes_before(paths.get(i - 1), paths.get(i)) {
            return false;
        }
    }
    true
}

/// Whether no path stands twice.
pub fn are_distinct(alloc: Global, paths: &Slacked) -> Result<bool, AllocError>
    ensures { IfOk result (λ distinct. IsTrue distinct ↔ AllPairs (λ a b. a.path ≢ b.path) paths.now) }
{
    let mut seen = BTreeSet::new(alloc);
    for i in 0..paths.len() {
        let path = paths.get(i).path.as_slice();
        if !seen.insert(path)? {
            return Ok(false);
        }
    }
    Ok(true)
}
