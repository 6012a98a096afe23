//! The orders of a report: whether an entry may stand after those before it.
ghost use Rattle.std.specs.Prelude.{◌≡◌, nat_lt};
ghost use Rattle.decomposition.specs.Graph.{is_list_before};
ghost use Rattle.decomposition.specs.Answer.{comes_before};
ghost use Rattle.report_reading.specs.ListSteps.{last_of, may_follow};

use dag_net::{Answer, IdLists};

/// Whether a number is above the last one.
pub(crate) fn is_above(ids: &[u32], next: u32) -> bool
    ensures { result ≡ may_follow nat_lt (last_of ids.now) next }
{
    let count = ids.len();
    count == 0 || ids[count - 1] < next
}

/// Whether an edge list stands before another.
fn is_list_before(first: &[u32], second: &[u32]) -> bool
    ensures { result ≡ is_list_before first.now second.now }
{
    first.cmp(second).is_lt()
}

/// Whether a path with its weight stands before another.
fn comes_before(path: &[u32], weight: u64, other: &[u32], other_weight: u64) -> bool
    ensures { result ≡ comes_before (path.now, weight) (other.now, other_weight) }
{
    other_weight < weight || (weight == other_weight && is_list_before(path, other))
}

/// Whether a path with its weight stands after the last one.
pub(crate) fn path_may_follow(paths: &Answer, path: &[u32], weight: u64) -> bool
    ensures { result ≡ may_follow comes_before (last_of paths.now) (path.now, weight) }
{
    let count = paths.len();
    if count == 0 {
        return true;
    }
    let last = paths.path(count - 1);
    comes_before(last.as_slice(), paths.weight(count - 1), path, weight)
}

/// Whether a run stands after the last one.
pub(crate) fn run_may_follow(runs: &IdLists, run: &[u32]) -> bool
    ensures { result ≡ may_follow is_list_before (last_of runs.now) run.now }
{
    let count = runs.len();
    if count == 0 {
        return true;
    }
    is_list_before(runs.get(count - 1).as_slice(), run)
}
