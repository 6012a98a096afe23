//! The edges that may follow a walk, one after the other.

ghost use Rattle.std.specs.Prelude.{◌≡◌, ◌≤◌, ◌<◌, [], ◌∷◌, length, MatchOption};
ghost use Rattle.decomposition.specs.Graph.{edge_count, tail, is_source};
ghost use Rattle.decomposition.specs.Reach.{IsBegun};
ghost use Rattle.decomposition.specs.Tokens.{next_edges, is_finished};
ghost use Rattle.link_cells.specs.Links.{walk_of};
ghost use Rattle.refute_tree.specs.Choices.{later, later_of};
ghost use Rattle.refute_tree.specs.Passing.{IsFirstPassing};

use dag_net::Net;
use link_cells::Incidence;

/// The first edge from number `from` on, of those before `to`, that leaves a source.
fn source_edge(net: &Net, from: u32, to: u32) -> Option<u32>
    requires { to ≤ edge_count net.now }
    ensures { IsFirstPassing (λ e. is_source net.now (tail net.now e)) from to result }
{
    (from..to).find(|&e| net.is_source(net.tail(e)))
}

/// The first edge that may follow the walk of the slot.
pub fn first_next(net: &Net, links: &Incidence, slot: u32) -> Option<u32>
    requires slot { slot < links.now.slots }
    requires begun { IsBegun net.now (walk_of links.now.links slot) }
    ensures { MatchOption result
        (next_edges net.now (walk_of links.now.links slot) ≡ [])
        (λ e. next_edges net.now (walk_of links.now.links slot) ≡ e ∷ later net.now (walk_of links.now.links slot) e) }
{
    match links.last_of(slot) {
        Some(last) => net.first_out(net.head(last)),
        None => source_edge(net, 0, net.edges()),
    }
}

/// The next edge after `edge` that may follow the walks that `edge` may follow.
pub fn next_after(net: &Net, edge: u32) -> Option<u32>
    requires { edge < edge_count net.now }
    ensures { MatchOption result (later_of net.now edge ≡ []) (λ f. later_of net.now edge ≡ f ∷ later_of net.now f) }
{
    if net.is_source(net.tail(edge)) {
        let edges = net.edges();
        source_edge(net, edge + 1, edges)
    } else {
        net.next_out(edge)
    }
}

/// How many edges after `edge` may follow the walks that `edge` may follow.
pub fn count_after(net: &Net, edge: u32) -> usize
    requires { edge < edge_count net.now }
    ensures count { result ≡ length (later_of net.now edge) }
    ensures few { result ≤ 4096 }
{
    prove!(net.edges() <= 4096);
    let mut count = 0;
    let mut at = edge;
    while let Some(next) = next_after(net, at) {
        count += 1;
        at = next;
    }
    count
}

/// Whether the walk of the slot has reached a sink.
pub fn is_finished(net: &Net, links: &Incidence, slot: u32) -> bool
    requires slot { slot < links.now.slots }
    requires begun { IsBegun net.now (walk_of links.now.links slot) }
    ensures { result ≡ is_finished net.now (walk_of links.now.links slot) }
{
    match links.last_of(slot) {
        Some(last) => net.is_sink(net.head(last)),
        None => false,
    }
}
