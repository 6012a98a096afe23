//! Windows of a path: parts of it that are made longer at the end and shorter at the beginning, with their sums.
//!
//! The excess of a window's run is what its edges carry and the flow out of its first vertex, less the flow out of
//! the vertices that its edges leave. So one edge more at either end changes it by that edge and one vertex.

ghost use Rattle.std.specs.Prelude.{◌≡◌, ℕ, ◌+◌, ◌<◌, ◌↔◌, ◌∷◌, [], ◌++◌, length, slice_index, IsTrue};
ghost use Rattle.decomposition.specs.SafeRuns.{IsSafeFor, IsMaximal};
ghost use Rattle.safe_paths.specs.Windows.{IsLaidOut, IsWindow, window_run, part};

use crate::vertex_flows::VertexFlows;
use dag_net::Net;

/// A part of a path, up to but not with place `to`: the flow of its edges, and the flow out of the vertices that they leave.
#[derive(Clone, Copy)]
pub struct Window {
    pub from: usize,
    pub to: usize,
    pub carried: u64,
    pub passed: u64,
}

/// The window, longer by one edge at its end.
fn longer(net: &Net, flow: &[u64], at: &VertexFlows, path: &[u32], window: Window) -> Window
    requires path { IsLaidOut net.now flow.now at.now path.now }
    requires window { IsWindow net.now (slice_index flow.now) path.now window }
    requires more { window.to < length path.now }
    ensures window { IsWindow net.now (slice_index flow.now) path.now result }
    ensures from { result.from ≡ window.from }
    ensures to { result.to ≡ window.to + 1 }
{
    let e = path[window.to];
    Window {
        to: window.to + 1,
        carried: window.carried + flow[e as usize],
        passed: window.passed + at.out[net.tail(e) as usize],
        ..window
    }
}

/// The window without its first edge.
pub fn without_first(
    net: &Net,
    flow: &[u64],
    at: &VertexFlows,
    path: &[u32],
    window: Window,
) -> Window
    requires path { IsLaidOut net.now flow.now at.now path.now }
    requires window { IsWindow net.now (slice_index flow.now) path.now window }
    requires some { window.from < window.to }
    ensures window { IsWindow net.now (slice_index flow.now) path.now result }
    ensures from { result.from ≡ window.from + 1 }
    ensures to { result.to ≡ window.to }
{
    let e = path[window.from];
    Window {
        from: window.from + 1,
        carried: window.carried - flow[e as usize],
        passed: window.passed - at.out[net.tail(e) as usize],
        ..window
    }
}

/// Whether the run in the window is safe: whether its excess is above 0.
fn is_safe(net: &Net, flow: &[u64], at: &VertexFlows, path: &[u32], window: Window) -> bool
    requires path { IsLaidOut net.now flow.now at.now path.now }
    requires window { IsWindow net.now (slice_index flow.now) path.now window }
    requires some { window.from < window.to }
    ensures { IsTrue result ↔ IsSafeFor net.now (slice_index flow.now) (window_run path.now window) }
{
    window.passed < window.carried + at.out[net.tail(path[window.from]) as usize]
}

/// The window, longer at its end as far as its run is safe.
pub fn widen(net: &Net, flow: &[u64], at: &VertexFlows, path: &[u32], window: Window) -> Window
    requires path { IsLaidOut net.now flow.now at.now path.now }
    requires window { IsWindow net.now (slice_index flow.now) path.now window }
    requires within { window.from < length path.now }
    requires safe { window.from < window.to → IsSafeFor net.now (slice_index flow.now) (window_run path.now window) }
    ensures window { IsWindow net.now (slice_index flow.now) path.now result }
    ensures from { result.from ≡ window.from }
    ensures some { result.from < result.to }
    ensures safe { IsSafeFor net.now (slice_index flow.now) (window_run path.now result) }
    ensures longest { result.to < length path.now → ¬ IsSafeFor net.now (slice_index flow.now) (part path.now result.from (result.to + 1)) }
{
    let mut wide = window;
    while wide.to < path.len() {
        let next = longer(net, flow, at, path, wide);
        if !is_safe(net, flow, at, path, next) {
            return wide;
        }
        wide = next;
    }
    wide
}

/// Whether some edge before the run makes a longer safe run.
fn grows_back(net: &Net, flow: &[u64], at: &VertexFlows, path: &[u32], window: Window) -> bool
    requires path { IsLaidOut net.now flow.now at.now path.now }
    requires window { IsWindow net.now (slice_index flow.now) path.now window }
    requires some { window.from < window.to }
    ensures { IsTrue result ↔ ((e : ℕ) × IsSafeFor net.now (slice_index flow.now) (e ∷ window_run path.now window)) }
{
    let first = net.tail(path[window.from]) as usize;
    window.passed < window.carried + at.greatest_in[first]
}

/// Whether some edge behind the run makes a longer safe run.
fn grows_on(net: &Net, flow: &[u64], at: &VertexFlows, path: &[u32], window: Window) -> bool
    requires path { IsLaidOut net.now flow.now at.now path.now }
    requires window { IsWindow net.now (slice_index flow.now) path.now window }
    requires some { window.from < window.to }
    ensures { IsTrue result ↔ ((e : ℕ) × IsSafeFor net.now (slice_index flow.now) (window_run path.now window ++ e ∷ [])) }
{
    let last = net.head(path[window.to - 1]);
    if net.is_sink(last) {
        return false;
    }
    let first = net.tail(path[window.from]) as usize;
    let last = last as usize;
    window.passed + at.out[last] < window.carried + at.out[first] + at.greatest_out[last]
}

/// Whether no safe run is longer than the safe run in the window.
pub fn is_maximal(net: &Net, flow: &[u64], at: &VertexFlows, path: &[u32], window: Window) -> bool
    requires path { IsLaidOut net.now flow.now at.now path.now }
    requires window { IsWindow net.now (slice_index flow.now) path.now window }
    requires some { window.from < window.to }
    requires safe { IsSafeFor net.now (slice_index flow.now) (window_run path.now window) }
    ensures { IsTrue result ↔ IsMaximal (IsSafeFor net.now (slice_index flow.now)) (window_run path.now window) }
{
    !grows_back(net, flow, at, path, window) && !grows_on(net, flow, at, path, window)
}
