//! Whether a run stands in the paths of an answer.

ghost use Rattle.std.specs.Prelude.{◌≡◌};
ghost use Rattle.std.specs.List.{list_any};
ghost use Rattle.decomposition.specs.Graph.{begins_with, contains_run};

use dag_net::Answer;

/// Whether the list begins with the run.
fn begins_with_run(path: &[u32], run: &[u32]) -> bool
    ensures { result ≡ begins_with path.now run.now }
{
    path.starts_with(run)
}

/// Whether the run stands in the path, entry after entry. A path of a net has each edge once, so at most one
/// comparison gets past its first entry.
pub fn stands_in(run: &[u32], path: &[u32]) -> bool
    ensures { result ≡ contains_run path.now run.now }
{
    for i in 0..path.len() {
        if begins_with_run(&path[i..], run) {
            return true;
        }
    }
    run.is_empty()
}

/// Whether some path of the answer contains the run. Costs steps in the total length of the paths and of the run.
pub fn is_covered(run: &[u32], answer: &Answer) -> bool
    ensures { result ≡ list_any (λ entry. contains_run entry.0 run.now) answer.now }
{
    for i in 0..answer.len() {
        if stands_in(run, answer.path(i).as_slice()) {
            return true;
        }
    }
    false
}
