//! Antichains: edges with a lower bound of at least 1, no two of which lie on one path.

ghost use Rattle.std.specs.Prelude.{◌≡◌, ◌≤◌, ◌<◌, ◌↔◌, ◌&&◌, ℕ, List, nat_lt, length, All, IsTrue};
ghost use Rattle.std.specs.List.{list_all};
ghost use Rattle.decomposition.specs.Graph.{edge_count, tail, head, EdgesShareAPath};
ghost use Rattle.decomposition.specs.Answer.{IsAnswer};
ghost use Rattle.decomposition.specs.Instance.{error};
ghost use Rattle.decomposition.specs.Reach.{Reaches};
ghost use Rattle.decomposition.specs.Width.{AreApart, IsApart, IsAntichain, is_needed};
ghost use Rattle.flow_models.specs.Problem.{instance};

use dag_net::Net;
use flow_models::Problem;

/// Whether the number is an edge with a lower bound of at least 1.
fn is_needed_edge(net: &Net, problem: &Problem, e: u32) -> bool
    requires ranged { length problem.now.ranges ≡ edge_count net.now }
    ensures { result ≡ (nat_lt e (edge_count net.now) && is_needed (instance net.now problem.now) e) }
{
    e < net.edges() && problem.ranges.get(e as usize).lo >= 1
}

/// Whether each number is an edge with a lower bound of at least 1.
fn are_needed_edges(net: &Net, problem: &Problem, edges: &[u32]) -> bool
    requires { length problem.now.ranges ≡ edge_count net.now }
    ensures { result ≡ list_all (λ e. nat_lt e (edge_count net.now) && is_needed (instance net.now problem.now) e) edges.now }
{
    edges.iter().all(|&e| is_needed_edge(net, problem, e))
}

/// Whether the head of the first edge reaches the tail of the second.
fn leads_to(net: &Net, e: u32, f: u32) -> bool
    requires first { e < edge_count net.now }
    requires second { f < edge_count net.now }
    ensures { IsTrue result ↔ Reaches net.now (head net.now e) (tail net.now f) }
{
    net.reaches(net.head(e), net.tail(f))
}

/// Whether some path has both edges: they are one edge, or the one leads to the other.
fn share_a_path(net: &Net, e: u32, f: u32) -> bool
    requires first { e < edge_count net.now }
    requires second { f < edge_count net.now }
    ensures { IsTrue result ↔ EdgesShareAPath net.now e f }
{
    prove!(e < net.edges());
    e == f || leads_to(net, e, f) || leads_to(net, f, e)
}

/// Whether no path has the edge and one of the others.
fn is_apart(net: &Net, e: u32, others: &[u32]) -> bool
    requires edge { e < edge_count net.now }
    requires others { All (λ f. f < edge_count net.now) others.now }
    ensures { IsTrue result ↔ AreApart net.now e others.now }
{
    for &f in others {
        if share_a_path(net, e, f) {
            return false;
        }
    }
    true
}

/// Whether no path has two of the edges.
fn are_apart(net: &Net, edges: &[u32]) -> bool
    requires { All (λ e. e < edge_count net.now) edges.now }
    ensures { IsTrue result ↔ IsApart net.now edges.now }
{
    for i in 0..edges.len() {
        if !is_apart(net, edges[i], &edges[i + 1..]) {
            return false;
        }
    }
    true
}

/// Whether the edges are an antichain of edges with a lower bound of at least 1: each is an edge of the net, and no two
/// lie on one path. Where so, no answer of error 0 has fewer paths than there are edges. A number that is no edge, and
/// an edge that stands twice, make the answer no. Each two entries are looked at once, in constant time: for k entries
/// that is at most k * (k - 1) / 2 steps. A list that passes has at most as many entries as the net has edges, today 256.
pub fn check_wide(net: &Net, problem: &Problem, edges: &[u32]) -> bool
    requires ranged { length problem.now.ranges ≡ edge_count net.now }
    ensures exact { IsTrue result ↔ IsAntichain (instance net.now problem.now) edges.now }
    ensures bounds { IsTrue result → (a : List (List ℕ × ℕ)) → IsAnswer net.now a → error (instance net.now problem.now) a ≡ 0 → length edges.now ≤ length a }
{
    are_needed_edges(net, problem, edges) && are_apart(net, edges)
}
