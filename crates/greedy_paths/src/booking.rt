//! Booked paths: each rule books a path that goes by the greatest edges back to a source and forth to a sink.

ghost use Rattle.std.specs.Prelude.{◌≡◌, ℕ, ◌<◌, ◌≤◌, ◌++◌, length, slice_index, All, IfOk, OnOk, IsTrue};
ghost use Rattle.std.specs.List.{list_all};
ghost use Rattle.decomposition.specs.Graph.{IsNet, IsRun, edge_count, tail, head, is_run};
ghost use Rattle.decomposition.specs.Answer.{IsAnswer, Covers};
ghost use Rattle.decomposition.specs.FirstAnswer.{IsBookedPath};
ghost use Rattle.greedy_paths.specs.Greatest.{AreGreatest};
ghost use Rattle.greedy_paths.specs.Booking.{AreEdgesAt, AreEdges, ComesFromSource, GoesToSink, AreBooked};

use crate::greatest::{GreatestEdges, greatest_edges};
use dag_net::{Answer, Ids, Net};
use std::alloc::{AllocError, Global};
use subpath_rules::{Rules, is_covered};

/// The edges from a source to `v`, each the one listed for its head.
fn edges_back(
    alloc: Global,
    net: &Net,
    into: &[Option<u32>],
    v: u32,
) -> Result<Vec<u32>, AllocError>
    requires vertex { v < net.now.vertices }
    requires net { IsNet net.now }
    requires listed { AreEdgesAt net.now (head net.now) into.now }
    ensures { IfOk result (λ before. ComesFromSource net.now into.now v before.items) }
{
    let mut back = Vec::new(alloc);
    let mut next = into[v as usize];
    while let Some(e) = next {
        back.push(e)?;
        next = into[net.tail(e) as usize];
    }
    back.reverse();
    Ok(back)
}

/// The edges from `v` to a sink, each the one listed for its tail.
fn edges_forth(
    alloc: Global,
    net: &Net,
    out_of: &[Option<u32>],
    v: u32,
) -> Result<Vec<u32>, AllocError>
    requires vertex { v < net.now.vertices }
    requires net { IsNet net.now }
    requires listed { AreEdgesAt net.now (tail net.now) out_of.now }
    ensures { IfOk result (λ after. GoesToSink net.now out_of.now v after.items) }
{
    let mut forth = Vec::new(alloc);
    let mut next = out_of[v as usize];
    while let Some(e) = next {
        forth.push(e)?;
        next = out_of[net.head(e) as usize];
    }
    Ok(forth)
}

/// Adds edges at the end of a path.
fn add_all(path: &mut Ids, edges: &[u32]) -> Result<(), AllocError>
    ensures { OnOk result (path.new ≡ path.old ++ edges.now) }
{
    for &e in edges {
        path.push(e)?;
    }
    Ok(())
}

/// The booked path of a run: the edges back to a source, the run, and the edges forth to a sink.
fn booked_path(
    alloc: Global,
    net: &Net,
    greatest: &GreatestEdges,
    run: &[u32],
) -> Result<Ids, AllocError>
    requires net { IsNet net.now }
    requires edges { AreEdges net.now greatest.now }
    requires run { IsRun net.now run.now }
    ensures { IfOk result (λ path. (flow : ℕ → ℕ) → AreGreatest net.now flow greatest.now → IsBookedPath net.now flow run.now path) }
{
    let before = edges_back(alloc, net, &greatest.into, net.tail(run[0]))?;
    let after = edges_forth(alloc, net, &greatest.out_of, net.head(run[run.len() - 1]))?;
    let mut path = Ids::new(alloc);
    add_all(&mut path, &before)?;
    add_all(&mut path, run)?;
    add_all(&mut path, &after)?;
    Ok(path)
}

/// The booked paths of the rules, in the order of booking, each with weight 1.
pub fn book(alloc: Global, net: &Net, guide: &[u64], rules: &Rules) -> Result<Answer, AllocError>
    requires one_each { length guide.now ≡ edge_count net.now }
    requires small { All (λ w. w ≤ 1000000000000) guide.now }
    requires runs { IsTrue (list_all (is_run net.now) rules.now) }
    ensures booked { IfOk result (AreBooked net.now (slice_index guide.now) rules.now) }
    ensures answer { IfOk result (IsAnswer net.now) }
    ensures covers { IfOk result (Covers rules.now) }
    ensures few { IfOk result (λ a. length a ≤ length rules.now) }
{
    let greatest = greatest_edges(alloc, net, guide)?;
    let mut booked = Answer::new(alloc);
    for i in 0..rules.len() {
        let run = rules.run(i);
        if !is_covered(run, &booked) {
            booked.push(booked_path(alloc, net, &greatest, run)?, 1)?;
        }
    }
    Ok(booked)
}
