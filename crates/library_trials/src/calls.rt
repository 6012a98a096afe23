//! Direct calls of the crates below.

use crate::problems::DIAMONDS;
use dag_net::{BuildFault, IdLists, Ids, Net};
use greedy_paths::{GreedyFault, decompose};
use path_cover::width;
use std::test::Fail;
use subpath_rules::{RuleFault, Rules};

#[test]
fn nets(rt: HostRuntime) {
    let alloc = rt.alloc();
    let cycle = Net::build(alloc, 2, &[(0, 1), (1, 0)]);
    assert!(rt; matches!(cycle, Err(BuildFault::Cycle { edge: 1 })));
    let outside = Net::build(alloc, 2, &[(0, 2)]);
    assert!(rt; matches!(outside, Err(BuildFault::Bounds { edge: 0 })));
    let repeated = Net::build(alloc, 2, &[(0, 1), (0, 1)]);
    assert!(rt; matches!(repeated, Err(BuildFault::Repeated { edge: 1 })));
}

#[test]
fn unbalanced(rt: HostRuntime) -> Result<(), Fail> {
    let alloc = rt.alloc();
    let net = Net::build(alloc, 3, &[(0, 1), (1, 2)])?;
    assert!(rt; net.edges() == 2);
    let refused = decompose(alloc, &net, &[3, 5]);
    assert!(rt; matches!(refused, Err(GreedyFault::Unbalanced { vertex: 1 })));
    Ok(())
}

#[test]
fn widths(rt: HostRuntime) -> Result<(), Fail> {
    let alloc = rt.alloc();
    let net = Net::build(alloc, 7, &DIAMONDS)?;
    assert!(rt; net.edges() == 8);
    for (needed, size) in [([true; 8], 2), ([false; 8], 0)] {
        let found = width(alloc, &net, &needed)?;
        assert_eq!(rt; found.cover.len(), size);
        assert_eq!(rt; found.antichain.len(), size);
    }
    Ok(())
}

#[test]
fn rules(rt: HostRuntime) -> Result<(), Fail> {
    let alloc = rt.alloc();
    let net = Net::build(alloc, 7, &DIAMONDS)?;
    let mut runs = IdLists::new(alloc);
    runs.push(Ids::new(alloc))?;
    assert!(rt; runs.len() < 2);
    let refused = Rules::build(alloc, &net, &runs);
    assert!(rt; matches!(refused, Err(RuleFault::NotARun { index: 0 })));
    Ok(())
}
