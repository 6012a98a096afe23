//! Runs in parts of paths, written out once each in rising order.

ghost use Rattle.std.specs.Prelude.{◌≡◌, map, All, IfOk};
ghost use Rattle.safe_paths.specs.Places.{IsPlaceIn, run_at, runs_at, AreInOrder};

use crate::places::Place;
use dag_net::{Answer, IdLists, Ids};
use std::alloc::{AllocError, Global};
use std::collections::BTreeSet;

/// The run at a place.
fn run_at(answer: &Answer, place: Place) -> &[u32]
    requires { IsPlaceIn answer.now place }
    ensures { result.now ≡ run_at answer.now place }
{
    let path = answer.path(place.path).as_slice();
    &path[place.from..place.to]
}

/// The same run as a list of its own.
fn copy_of(alloc: Global, run: &[u32]) -> Result<Ids, AllocError>
    ensures { IfOk result (λ copy. copy ≡ run.now) }
{
    let mut copy = Ids::new(alloc);
    for &e in run {
        copy.push(e)?;
    }
    Ok(copy)
}

/// The runs of a set, in its order.
fn written_out(alloc: Global, runs: &BTreeSet<&[u32]>) -> Result<IdLists, AllocError>
    ensures { IfOk result (AreInOrder (map (λ run. run.now) runs.now.keys)) }
{
    let mut lists = IdLists::new(alloc);
    for run in runs {
        lists.push(copy_of(alloc, run)?)?;
    }
    Ok(lists)
}

/// The runs at some places, each once, rising by edge list.
pub fn in_order(alloc: Global, answer: &Answer, places: &[Place]) -> Result<IdLists, AllocError>
    requires { All (IsPlaceIn answer.now) places.now }
    ensures { IfOk result (AreInOrder (runs_at answer.now places.now)) }
{
    let mut runs = BTreeSet::new(alloc);
    for &place in places {
        runs.insert(run_at(answer, place))?;
    }
    written_out(alloc, &runs)
}
