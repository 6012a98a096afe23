//! The maximal safe runs of a flow.

use crate::problems::DIAMONDS;
use dag_net::Net;
use greedy_paths::decompose;
use safe_paths::{excess, maximal_safe};
use std::test::Fail;

#[test]
fn the_diamonds_keep_three_runs(rt: HostRuntime) -> Result<(), Fail> {
    let alloc = rt.alloc();
    let net = Net::build(alloc, 7, &DIAMONDS)?;
    assert!(rt; net.edges() == 8);
    let flow = [5, 5, 2, 2, 4, 4, 3, 3];
    let answer = decompose(alloc, &net, &flow)?;
    let runs = maximal_safe(alloc, &net, &flow, &answer)?;
    let kept: [(&[u32], i128); 3] = [(&[0, 1, 4, 5], 2), (&[0, 1, 6, 7], 1), (&[2, 3], 2)];
    assert_eq!(rt; runs.len(), kept.len());
    for (i, (run, surplus)) in kept.iter().enumerate() {
        assert!(rt; i < runs.len() && runs.get(i).as_slice() == *run, "{run:?}");
        assert!(rt;
            net.is_run(run) && excess(&net, &flow, run) == *surplus,
            "{run:?}"
        );
    }
    Ok(())
}
