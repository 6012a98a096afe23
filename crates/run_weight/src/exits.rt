//! Where a path leaves a run that it has not come along, and paths with exchanged ends.

ghost use Rattle.std.specs.Prelude.{◌≡◌, ◌<◌, ◌≤◌, ◌++◌, length, slice_index, IfOk, OnOk, IfSome, IfNone, false, All};
ghost use Rattle.decomposition.specs.Graph.{edge_count, tail, has_edge, IsRun, IsNet};
ghost use Rattle.run_weight.specs.Exits.{ArePlacesAlong, IsExit, HasNoExit, joined};

use dag_net::{Ids, Net};
use std::alloc::{AllocError, Global};

/// A place of a path, and the place of the run's edge that leaves the same vertex.
#[derive(Clone, Copy)]
pub struct Exit {
    pub at: usize,
    pub along: usize,
}

/// For each vertex the place of the run's edge that leaves it, 0 where none does, or the first.
pub fn places_along(alloc: Global, net: &Net, run: &[u32]) -> Result<Vec<usize>, AllocError>
    requires run { IsRun net.now run.now }
    ensures { IfOk result (λ places. ArePlacesAlong net.now run.now places.items) }
{
    let mut places = vec![in alloc; 0; net.vertices() as usize]?;
    for k in 1..run.len() {
        places[net.tail(run[k]) as usize] = k;
    }
    Ok(places)
}

/// The first place where the path leaves the run and has not come along it up to there.
pub fn first_exit(net: &Net, run: &[u32], places: &[usize], path: &[u32]) -> Option<Exit>
    requires places { ArePlacesAlong net.now run.now places.now }
    requires path { All (λ e. e < edge_count net.now) path.now }
    ensures found { IfSome result (λ exit. IsExit net.now run.now path.now exit.at exit.along) }
    ensures none { IfNone result (HasNoExit net.now run.now places.now path.now) }
{
    for at in 0..path.len() {
        let along = places[net.tail(path[at]) as usize];
        if along > 0 && path[at] != run[along] && !path[..at].ends_with(&run[..along]) {
            return Some(Exit { at, along });
        }
    }
    None
}

/// The place of an edge in a path.
pub fn place_of(path: &[u32], e: u32) -> Option<usize>
    ensures found { IfSome result (λ i. i < length path.now) }
    ensures edge { IfSome result (λ i. slice_index path.now i ≡ e) }
    ensures none { IfNone result (has_edge path.now e ≡ false) }
{
    for i in 0..path.len() {
        if path[i] == e {
            return Some(i);
        }
    }
    None
}

/// Adds edges at the end of a path.
fn add_all(path: &mut Ids, edges: &[u32]) -> Result<(), AllocError>
    ensures { OnOk result (path.new ≡ path.old ++ edges.now) }
{
    for &e in edges {
        path.push(e)?;
    }
    Ok(())
}

/// The same edges as a list of its own.
pub fn copy_of(alloc: Global, path: &[u32]) -> Result<Ids, AllocError>
    ensures { IfOk result (λ copy. copy ≡ path.now) }
{
    let mut copy = Ids::new(alloc);
    add_all(&mut copy, path)?;
    Ok(copy)
}

/// The edges of one path before a place, and those of another from a place on.
pub fn joined(
    alloc: Global,
    before: &[u32],
    i: usize,
    after: &[u32],
    j: usize,
) -> Result<Ids, AllocError>
    requires before { i ≤ length before.now }
    requires after { j ≤ length after.now }
    ensures { IfOk result (λ path. path ≡ joined before.now i after.now j) }
{
    let mut path = Ids::new(alloc);
    add_all(&mut path, &before[..i])?;
    add_all(&mut path, &after[j..])?;
    Ok(path)
}
