//! The edges by which a new path goes on and by which it came: rather those that are needed and have no flow yet.

ghost use Rattle.std.specs.Prelude.{◌≡◌, ◌<◌, length};
ghost use Rattle.decomposition.specs.Graph.{edge_count};
ghost use Rattle.dag_net.specs.Entering.{EnterFrom};
ghost use Rattle.path_cover.specs.GoingOn.{IsEdgeOut, IsEdgeInto};

use dag_net::{Entering, Net};

/// An edge that leaves `v`: the first that is needed and has no flow, or else the first.
pub fn edge_onward(net: &Net, needed: &[bool], flow: &[u64], v: u32) -> Option<u32>
    requires vertex { v < net.now.vertices }
    requires needed { length needed.now ≡ edge_count net.now }
    requires one_each { length flow.now ≡ edge_count net.now }
    ensures { IsEdgeOut net.now v result }
{
    let mut out = net.first_out(v);
    while let Some(e) = out {
        if needed[e as usize] && flow[e as usize] == 0 {
            return Some(e);
        }
        out = net.next_out(e);
    }
    net.first_out(v)
}

/// An edge that enters `v`: the first that is needed and has no flow, or else the first.
pub fn edge_back(
    net: &Net,
    entering: &Entering,
    needed: &[bool],
    flow: &[u64],
    v: u32,
) -> Option<u32>
    requires vertex { v < net.now.vertices }
    requires entering { EnterFrom net.now 0 entering.now.first.items entering.now.next.items }
    requires needed { length needed.now ≡ edge_count net.now }
    requires one_each { length flow.now ≡ edge_count net.now }
    ensures { IsEdgeInto net.now v result }
{
    let mut into = entering.first[v as usize];
    while let Some(e) = into {
        if needed[e as usize] && flow[e as usize] == 0 {
            return Some(e);
        }
        into = entering.next[e as usize];
    }
    entering.first[v as usize]
}
