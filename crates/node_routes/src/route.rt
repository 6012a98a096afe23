//! The route that a path of a split graph stands for.
ghost use Rattle.std.specs.Prelude.{◌≡◌, IfOk};
ghost use Rattle.node_routes.specs.Split.{route_in};

use dag_net::Ids;
use std::alloc::{AllocError, Global};

/// The vertices of a path of the split graph of so many vertices, in order, in time linear in the path.
pub fn route_of(alloc: Global, vertices: u32, path: &[u32]) -> Result<Ids, AllocError>
    ensures { IfOk result (λ route. route ≡ route_in vertices path.now) }
{
    let mut route = Ids::new(alloc);
    for vertex in path.iter().copied().filter(|edge| *edge < vertices) {
        route.push(vertex)?;
    }
    Ok(route)
}
