//! Equal paths made one, in report order.

ghost use Rattle.std.specs.Prelude.{◌≡◌, ◌+◌, ◌-◌, ◌^◌, ◌<◌, length, OnOk, IfOk, IsTrue};
ghost use Rattle.std.specs.Ordering.{nat_cmp, ordering_then};
ghost use Rattle.std.specs.Cmp.Lexicographic.{slice_cmp};
ghost use Rattle.std.specs.List.Sorted.{IsPermutation};
ghost use Rattle.decomposition.specs.Answer.{entry_at};
ghost use Rattle.std.specs.List.{IsDistinct};
ghost use Rattle.decomposition.specs.Answer.{total_weight, same_path, IsInReportOrder};
ghost use Rattle.decomposition.specs.Graph.{is_list_le};
ghost use Rattle.dag_net.specs.Merge.{AreSorted, AreRising, EndsWith, AddsWeight, Merges};

use crate::ids::Ids;
use std::alloc::{AllocError, Global};
use std::cmp::Ordering;

/// Compares two entries by their paths.
fn path_order(a: &(Ids, u64), b: &(Ids, u64)) -> Ordering
    ensures { result ≡ slice_cmp nat_cmp a.now.0 b.now.0 }
{
    a.0.as_slice().cmp(b.0.as_slice())
}

/// Brings the entries into the order of their paths.
fn sort_by_path(entries: &mut Vec<(Ids, u64)>) -> Result<(), AllocError>
    ensures order { OnOk result (AreSorted entries.new.items) }
    ensures permutation { IsPermutation entries.old.items entries.new.items }
{
    entries.sort_by(|a, b| path_order(a, b))
}

/// Adds a weight to the last entry, if it has this path, or makes an entry.
fn add_weight(entries: &mut Vec<(Ids, u64)>, path: Ids, weight: u64) -> Result<(), AllocError>
    requires total { total_weight entries.old.items + weight < 2 ^ 64 }
    requires rising { AreRising entries.old.items }
    requires after { 0 < length entries.old.items → IsTrue (is_list_le (entry_at entries.old.items (length entries.old.items - 1)).0 path) }
    ensures adds { OnOk result (AddsWeight entries.old.items entries.new.items path weight) }
    ensures rising { OnOk result (AreRising entries.new.items) }
    ensures last { OnOk result (EndsWith entries.new.items path) }
{
    let count = entries.len();
    if count > 0 && entries[count - 1].0.as_slice() == path.as_slice() {
        entries[count - 1].1 += weight;
    } else {
        entries.push((path, weight))?;
    }
    Ok(())
}

/// The entries in the order of their paths, with those of equal paths made one.
fn merge_neighbors(alloc: Global, entries: Vec<(Ids, u64)>) -> Result<Vec<(Ids, u64)>, AllocError>
    requires total { total_weight entries.items < 2 ^ 64 }
    requires sorted { AreSorted entries.items }
    ensures { IfOk result (λ merged. Merges entries.items merged.items) }
{
    let mut merged = Vec::new(alloc);
    for (path, weight) in entries {
        add_weight(&mut merged, path, weight)?;
    }
    Ok(merged)
}

/// The entries with equal paths made one.
pub fn merge(alloc: Global, entries: Vec<(Ids, u64)>) -> Result<Vec<(Ids, u64)>, AllocError>
    requires { total_weight entries.items < 2 ^ 64 }
    ensures { IfOk result (λ merged. Merges entries.items merged.items) }
{
    let mut sorted = entries;
    sort_by_path(&mut sorted)?;
    merge_neighbors(alloc, sorted)
}

/// Compares two entries by falling weight, and then by rising path.
fn report_order(a: &(Ids, u64), b: &(Ids, u64)) -> Ordering
    ensures { result ≡ ordering_then (nat_cmp b.now.1 a.now.1) (slice_cmp nat_cmp a.now.0 b.now.0) }
{
    match b.1.cmp(&a.1) {
        Ordering::Equal => a.0.as_slice().cmp(b.0.as_slice()),
        order => order,
    }
}

/// Brings entries with different paths into report order.
pub fn put_in_order(entries: &mut Vec<(Ids, u64)>) -> Result<(), AllocError>
    requires { IsDistinct same_path entries.old.items }
    ensures order { OnOk result (IsInReportOrder entries.new.items) }
    ensures permutation { IsPermutation entries.old.items entries.new.items }
{
    entries.sort_by(|a, b| report_order(a, b))
}
