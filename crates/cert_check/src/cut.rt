//! Cuts: vertices that must receive more than they can send on, or must send more than they can receive.

ghost use Rattle.std.specs.Prelude.{◌≡◌, ◌<◌, ◌↔◌, ◌&&◌, ℕ, List, not, nat_lt, length, IsTrue};
ghost use Rattle.std.specs.List.{list_all};
ghost use Rattle.decomposition.specs.Graph.{edge_count};
ghost use Rattle.decomposition.specs.Answer.{IsAnswer};
ghost use Rattle.decomposition.specs.Instance.{error};
ghost use Rattle.decomposition.specs.Certificates.{has_vertex, sum_of_lo, sum_of_hi, IsCut};
ghost use Rattle.flow_models.specs.Problem.{instance};
ghost use Rattle.cert_check.specs.Cut.{opposite, crosses, is_end};

use dag_net::Net;
use decomposition::Side;
use flow_models::Problem;

/// The side on the other hand.
fn opposite(side: Side) -> Side
    ensures { result ≡ opposite side }
{
    match side {
        Side::Entering => Side::Leaving,
        Side::Leaving => Side::Entering,
    }
}

/// Whether the vertex stands in the list.
fn has_vertex(vertices: &[u32], v: u32) -> bool
    ensures { result ≡ has_vertex vertices.now v }
{
    vertices.iter().any(|&w| v == w)
}

/// Whether the edge enters the vertices from outside, or leaves them.
fn crosses(net: &Net, side: Side, vertices: &[u32], e: u32) -> bool
    requires { e < edge_count net.now }
    ensures { result ≡ crosses net.now side vertices.now e }
{
    let (outside, inside) = match side {
        Side::Entering => (net.tail(e), net.head(e)),
        Side::Leaving => (net.head(e), net.tail(e)),
    };
    has_vertex(vertices, inside) && !has_vertex(vertices, outside)
}

/// Whether the number is a vertex at which no flow must end, or begin.
fn goes_on(net: &Net, side: Side, v: u32) -> bool
    ensures { result ≡ (nat_lt v net.now.vertices && not (is_end net.now side v)) }
{
    v < net.vertices()
        && match side {
            Side::Entering => !net.is_sink(v),
            Side::Leaving => !net.is_source(v),
        }
}

/// Whether each number is a vertex at which no flow must end, or begin.
fn all_go_on(net: &Net, side: Side, vertices: &[u32]) -> bool
    ensures { result ≡ list_all (λ v. nat_lt v net.now.vertices && not (is_end net.now side v)) vertices.now }
{
    vertices.iter().all(|&v| goes_on(net, side, v))
}

/// The sum of the lower bounds of the edges that enter the vertices, or leave them.
fn sum_of_lo(net: &Net, p: &Problem, side: Side, vertices: &[u32]) -> u128
    requires { length p.now.ranges ≡ edge_count net.now }
    ensures { result ≡ sum_of_lo (instance net.now p.now) (crosses net.now side vertices.now) }
{
    let mut sum = 0u128;
    for e in 0..net.edges() {
        if crosses(net, side, vertices, e) {
            sum += u128::from(p.ranges.get(e as usize).lo);
        }
    }
    sum
}

/// The sum of the upper bounds of the edges that enter the vertices, or leave them.
fn sum_of_hi(net: &Net, p: &Problem, side: Side, vertices: &[u32]) -> u128
    requires { length p.now.ranges ≡ edge_count net.now }
    ensures { result ≡ sum_of_hi (instance net.now p.now) (crosses net.now side vertices.now) }
{
    let mut sum = 0u128;
    for e in 0..net.edges() {
        if crosses(net, side, vertices, e) {
            sum += u128::from(p.ranges.get(e as usize).hi);
        }
    }
    sum
}

/// Whether the vertices are a cut: none is a sink, and the lower bounds of the edges that enter them are more than the
/// upper bounds of the edges that leave them; or the other way round, and none is a source. Where so, no answer has
/// error 0. A number that is no vertex makes the answer no; a vertex that stands twice counts once. The list need not
/// rise, so each entry is looked at up to four times for each edge: for 8,192 entries and 4,096 edges that is 134 million
/// steps.
pub fn check_cut(net: &Net, p: &Problem, side: Side, vertices: &[u32]) -> bool
    requires ranged { length p.now.ranges ≡ edge_count net.now }
    ensures exact { IsTrue result ↔ IsCut (instance net.now p.now) side vertices.now }
    ensures refutes { IsTrue result → (a : List (List ℕ × ℕ)) → IsAnswer net.now a → error (instance net.now p.now) a ≡ 0 → ⊥ }
{
    prove!(net.vertices() <= 8192);
    all_go_on(net, side, vertices)
        && sum_of_hi(net, p, opposite(side), vertices) < sum_of_lo(net, p, side, vertices)
}
