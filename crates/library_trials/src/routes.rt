//! Routes in paths of a split graph.

use node_routes::route_of;
use std::test::Fail;

/// Paths of the split graph of three vertices, and the routes in them.
const ROUTES: [(&[u32], &[u32]); 3] = [
    (&[0, 3, 1, 5, 2], &[0, 1, 2]),
    (&[0, 4, 2], &[0, 2]),
    (&[2], &[2]),
];

#[test]
fn a_route_has_the_vertices_of_a_path_in_order(rt: HostRuntime) -> Result<(), Fail> {
    for (path, vertices) in ROUTES {
        let route = route_of(rt.alloc(), 3, path)?;
        assert_eq!(rt; route.as_slice(), vertices, "{path:?}");
    }
    Ok(())
}
