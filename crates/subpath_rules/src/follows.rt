//! When a run follows on a walk, by what can be reached.

ghost use Rattle.std.specs.Prelude.{◌≡◌, ◌↔◌, IsTrue};
ghost use Rattle.decomposition.specs.Graph.{IsRun};
ghost use Rattle.subpath_rules.specs.Follows.{agree, Overlaps, Follows};

use dag_net::Net;

/// Whether two lists are equal as far as both go.
fn agree(a: &[u32], b: &[u32]) -> bool
    ensures { result ≡ agree a.now b.now }
{
    let count = a.len().min(b.len());
    a[..count] == b[..count]
}

/// Whether, from some place of the walk on, the two are equal as far as both go. A walk of a net has each edge
/// once, so at most one comparison gets past its first entry.
fn overlaps(walk: &[u32], run: &[u32]) -> bool
    ensures { IsTrue result ↔ Overlaps walk.now run.now }
{
    for k in 0..walk.len() {
        if agree(&walk[k..], run) {
            return true;
        }
    }
    false
}

/// Whether the run begins within the walk and goes on as it does, or begins where the walk's end leads to.
pub fn follows(net: &Net, walk: &[u32], run: &[u32]) -> bool
    requires walk { IsRun net.now walk.now }
    requires run { IsRun net.now run.now }
    ensures { IsTrue result ↔ Follows net.now walk.now run.now }
{
    overlaps(walk, run) || net.reaches(net.head(walk[walk.len() - 1]), net.tail(run[0]))
}
