//! The bounds of a problem as lists, and what they say of the width.
ghost use Rattle.std.specs.Prelude.{◌≡◌, ◌<◌, ◌^◌, nat_le, nat_lt, length, map, IfOk, IsTrue};
ghost use Rattle.decomposition.specs.Answer.{is_ordered};
ghost use Rattle.decomposition.specs.Graph.{edge_count};
ghost use Rattle.decomposition.specs.Instance.{range_at};
ghost use Rattle.decomposition.specs.Width.{IsAntichainOf, IsWidthOf};

use dag_net::{Ids, Net, Ranges};
use path_cover::{Width, width};
use std::alloc::{AllocError, Global};

/// The lower bound of each range.
pub fn lower_bounds(alloc: Global, ranges: &Ranges) -> Result<Vec<u64>, AllocError>
    ensures { IfOk result (λ bounds. bounds.items ≡ map (λ range. range.lo) ranges.now) }
{
    ranges
        .as_slice()
        .iter()
        .map(|range| range.lo)
        .collect(alloc)
}

/// The upper bound of each range.
pub fn upper_bounds(alloc: Global, ranges: &Ranges) -> Result<Vec<u64>, AllocError>
    ensures { IfOk result (λ bounds. bounds.items ≡ map (λ range. range.hi) ranges.now) }
{
    ranges
        .as_slice()
        .iter()
        .map(|range| range.hi)
        .collect(alloc)
}

/// As many edges with a lower bound of at least 1 as can be of which no two lie on one path, rising.
pub fn widest_antichain(alloc: Global, net: &Net, ranges: &Ranges) -> Result<Ids, AllocError>
    requires { length ranges.now ≡ edge_count net.now }
    ensures width { IfOk result (λ es. IsWidthOf net.now (λ e. nat_le 1 (range_at ranges.now e).lo) (length es)) }
    ensures antichain { IfOk result (IsAntichainOf net.now (λ e. nat_le 1 (range_at ranges.now e).lo)) }
    ensures rising { IfOk result (λ es. IsTrue (is_ordered nat_lt es)) }
    ensures few { IfOk result (λ es. length es < 2 ^ 64) }
{
    let needed = needed_edges(alloc, ranges)?;
    let Width {
        cover: _,
        antichain,
    } = width(alloc, net, &needed)?;
    prove!(antichain.len() <= usize::MAX);
    Ok(antichain)
}

/// Whether each edge has a lower bound of at least 1.
fn needed_edges(alloc: Global, ranges: &Ranges) -> Result<Vec<bool>, AllocError>
    ensures { IfOk result (λ needed. needed.items ≡ map (λ range. nat_le 1 range.lo) ranges.now) }
{
    ranges
        .as_slice()
        .iter()
        .map(|range| range.lo >= 1)
        .collect(alloc)
}
