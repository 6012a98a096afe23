//! The width of needed edges, by a flow that carries them with as little as can be.

ghost use Rattle.std.specs.Prelude.{◌≡◌, ◌<◌, ◌&&◌, nat_lt, length, slice_index_or, false, IsTrue, IfOk};
ghost use Rattle.decomposition.specs.Graph.{edge_count};
ghost use Rattle.decomposition.specs.Answer.{is_ordered};
ghost use Rattle.decomposition.specs.Width.{IsPathCover, IsAntichainOf};
ghost use Rattle.path_cover.specs.Cut.{leaves, AreThose};
ghost use Rattle.dag_net.specs.Marks.{is_set};

use crate::carrying::first_flow;
use crate::found::Width;
use crate::lessening::lessen;
use crate::splitting::split;
use dag_net::{Entering, Ids, Net};
use std::alloc::{AllocError, Global};

/// Whether the edge is needed and leaves the marked vertices.
fn is_leaving(net: &Net, needed: &[bool], marked: &[bool], e: u32) -> bool
    requires edge { e < edge_count net.now }
    requires needed { length needed.now ≡ edge_count net.now }
    requires marked { length marked.now ≡ net.now.vertices }
    ensures { result ≡ (is_set needed.now e && leaves net.now (is_set marked.now) e) }
{
    needed[e as usize] && marked[net.tail(e) as usize] && !marked[net.head(e) as usize]
}

/// The needed edges that leave the marked vertices, rising.
fn leaving(alloc: Global, net: &Net, needed: &[bool], marked: &[bool]) -> Result<Ids, AllocError>
    requires needed { length needed.now ≡ edge_count net.now }
    requires marked { length marked.now ≡ net.now.vertices }
    ensures { IfOk result (AreThose (λ e. is_set needed.now e && leaves net.now (is_set marked.now) e) (edge_count net.now)) }
{
    let mut edges = Ids::new(alloc);
    for e in 0..net.edges() {
        if is_leaving(net, needed, marked, e) {
            edges.push(e)?;
        }
    }
    Ok(edges)
}

/// The fewest paths that have every needed edge, and as many needed edges of which no two lie on one path.
pub fn width(alloc: Global, net: &Net, needed: &[bool]) -> Result<Width, AllocError>
    requires { length needed.now ≡ edge_count net.now }
    ensures cover { IfOk result (λ width. IsPathCover net.now (λ e. slice_index_or needed.now e false) width.cover) }
    ensures antichain { IfOk result (λ width. IsAntichainOf net.now (λ e. slice_index_or needed.now e false) width.antichain) }
    ensures equal { IfOk result (λ width. length width.cover ≡ length width.antichain) }
    ensures rising { IfOk result (λ width. IsTrue (is_ordered nat_lt width.antichain)) }
{
    let entering = Entering::of(alloc, net)?;
    let mut flow = first_flow(alloc, net, &entering, needed)?;
    let marked = lessen(alloc, net, &entering, needed, &mut flow)?;
    let antichain = leaving(alloc, net, needed, &marked)?;
    let cover = split(alloc, net, &flow)?;
    Ok(Width { cover, antichain })
}
