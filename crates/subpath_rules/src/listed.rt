//! Lists of runs: the first list that is no run, and the lists without repeats.

ghost use Rattle.std.specs.Prelude.{◌≡◌, ◌^◌, ◌<◌, length, MatchOption, IfOk, IsTrue};
ghost use Rattle.std.specs.List.{list_all};
ghost use Rattle.decomposition.specs.Graph.{is_run};
ghost use Rattle.subpath_rules.specs.Rules.{distinct_runs};
ghost use Rattle.subpath_rules.specs.Faults.{IsFirstNoRun};

use dag_net::{IdLists, Ids, Net};
use std::alloc::{AllocError, Global};
use std::collections::BTreeSet;

/// The place of the first list that is no run of the net.
pub fn first_no_run(net: &Net, listed: &IdLists) -> Option<u32>
    requires { length listed.now < 2 ^ 32 }
    ensures { MatchOption result (IsTrue (list_all (is_run net.now) listed.now)) (IsFirstNoRun net.now listed.now) }
{
    for i in 0..listed.len() {
        if !net.is_run(listed.get(i).as_slice()) {
            return Some(i as u32);
        }
    }
    None
}

/// The same run as a list of its own.
fn copy_of(alloc: Global, run: &[u32]) -> Result<Ids, AllocError>
    ensures { IfOk result (λ copy. copy ≡ run.now) }
{
    let mut copy = Ids::new(alloc);
    for &e in run {
        copy.push(e)?;
    }
    Ok(copy)
}

/// The lists, each once, at its first place.
pub fn without_repeats(alloc: Global, listed: &IdLists) -> Result<IdLists, AllocError>
    ensures { IfOk result (λ once. once ≡ distinct_runs listed.now) }
{
    let mut seen = BTreeSet::new(alloc);
    let mut once = IdLists::new(alloc);
    for i in 0..listed.len() {
        let run = listed.get(i).as_slice();
        if seen.insert(run)? {
            once.push(copy_of(alloc, run)?)?;
        }
    }
    Ok(once)
}
