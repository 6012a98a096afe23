//! The least weight that the decompositions of a flow put on a run.

use crate::problems::DIAMONDS;
use dag_net::{Answer, Net};
use greedy_paths::decompose;
use run_weight::{least_load, lighten, load};
use std::test::Fail;

/// Runs of the diamonds, and the least that any decomposition puts on each.
const LEAST: [(&[u32], u64); 6] = [
    (&[0, 1, 4], 2),
    (&[3, 4], 0),
    (&[0], 5),
    (&[4, 5], 4),
    (&[0, 1, 6, 7], 1),
    (&[2, 3, 6], 0),
];

#[test]
fn runs_of_the_diamonds(rt: HostRuntime) -> Result<(), Fail> {
    let alloc = rt.alloc();
    let net = Net::build(alloc, 7, &DIAMONDS)?;
    assert!(rt; net.edges() == 8);
    let flow = [5, 5, 2, 2, 4, 4, 3, 3];
    let answer = decompose(alloc, &net, &flow)?;
    for (run, least) in LEAST {
        assert!(rt; net.is_run(run), "{run:?}");
        assert_eq!(rt; least_load(&net, &flow, run), least, "{run:?}");
        let lightest = lighten(alloc, &net, &flow, &answer, run)?;
        assert!(rt; lightest.len() < 100);
        assert!(rt; load(&lightest, run) == u128::from(least), "{run:?}");
    }
    Ok(())
}

#[test]
fn an_empty_answer_puts_nothing_on_a_run(rt: HostRuntime) -> Result<(), Fail> {
    let alloc = rt.alloc();
    let net = Net::build(alloc, 2, &[(0, 1)])?;
    assert!(rt; net.edges() == 1);
    let flow = [0];
    let answer = decompose(alloc, &net, &flow)?;
    assert!(rt; net.is_run(&[0]) && least_load(&net, &flow, &[0]) == 0);
    let lightest = lighten(alloc, &net, &flow, &answer, &[0])?;
    assert!(rt; lightest.len() == 0 && load(&Answer::new(alloc), &[0]) == 0);
    Ok(())
}
