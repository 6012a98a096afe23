//! Where the maximal safe runs stand in the paths of an answer.

ghost use Rattle.std.specs.Prelude.{◌+◌, ◌<◌, length, slice_index, IfOk, OnOk};
ghost use Rattle.decomposition.specs.SafeRuns.{IsSafeFor, IsMaximal};
ghost use Rattle.safe_paths.specs.Windows.{IsSearched};
ghost use Rattle.safe_paths.specs.Places.{Finds};

use crate::vertex_flows::VertexFlows;
use crate::windows::{Window, is_maximal, widen, without_first};
use dag_net::{Answer, Net};
use std::alloc::{AllocError, Global};

/// A part of a path of an answer, up to but not with place `to`.
#[derive(Clone, Copy)]
pub struct Place {
    pub path: usize,
    pub from: usize,
    pub to: usize,
}

/// Adds the places in path `k` where maximal safe runs stand.
fn search_path(
    net: &Net,
    flow: &[u64],
    at: &VertexFlows,
    answer: &Answer,
    k: usize,
    places: &mut Vec<Place>,
) -> Result<(), AllocError>
    requires searched { IsSearched net.now flow.now at.now answer.now }
    requires path { k < length answer.now }
    requires before { Finds (IsMaximal (IsSafeFor net.now (slice_index flow.now))) answer.now k 0 places.old.items }
    ensures { OnOk result (Finds (IsMaximal (IsSafeFor net.now (slice_index flow.now))) answer.now (k + 1) 0 places.new.items) }
{
    let path = answer.path(k).as_slice();
    let mut window = Window {
        from: 0,
        to: 0,
        carried: 0,
        passed: 0,
    };
    for from in 0..path.len() {
        let wide = widen(net, flow, at, path, window);
        if is_maximal(net, flow, at, path, wide) {
            places.push(Place {
                path: k,
                from,
                to: wide.to,
            })?;
        }
        window = without_first(net, flow, at, path, wide);
    }
    Ok(())
}

/// The places where maximal safe runs stand.
pub fn search(
    alloc: Global,
    net: &Net,
    flow: &[u64],
    at: &VertexFlows,
    answer: &Answer,
) -> Result<Vec<Place>, AllocError>
    requires { IsSearched net.now flow.now at.now answer.now }
    ensures { IfOk result (λ places. Finds (IsMaximal (IsSafeFor net.now (slice_index flow.now))) answer.now (length answer.now) 0 places.items) }
{
    let mut places = Vec::new(alloc);
    for k in 0..answer.len() {
        search_path(net, flow, at, answer, k, &mut places)?;
    }
    Ok(places)
}
