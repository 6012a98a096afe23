//! Booked paths, and the decompositions over them.

ghost use Rattle.std.specs.Prelude.{◌≡◌, ◌≤◌, length, All, IfOk, IsTrue};
ghost use Rattle.std.specs.List.{list_all};
ghost use Rattle.decomposition.specs.Graph.{edge_count, is_run};

use crate::problems::DIAMONDS;
use dag_net::{Answer, IdLists, Ids, Net};
use greedy_paths::{GreedyFault, book, decompose, decompose_with};
use safe_paths::maximal_safe;
use std::alloc::{AllocError, Global};
use std::test::Fail;
use subpath_rules::Rules;

/// The runs that go from the lesser way over the first diamond to either way over the second.
const CROSSINGS: [&[u32]; 2] = [&[3, 4], &[3, 6]];

/// Guides, runs, and the paths that they book.
const BOOKINGS: [([u64; 8], &[&[u32]], &[&[u32]]); 5] = [
    (
        [6, 6, 1, 1, 4, 4, 3, 3],
        &CROSSINGS,
        &[&[2, 3, 4, 5], &[2, 3, 6, 7]],
    ),
    ([6, 6, 1, 1, 4, 4, 3, 3], &[&[6], &[0]], &[&[0, 1, 6, 7]]),
    (
        [6, 6, 1, 1, 4, 4, 3, 3],
        &[&[3, 4], &[2, 3], &[4]],
        &[&[2, 3, 4, 5]],
    ),
    (
        [6, 6, 1, 1, 3, 4, 4, 3],
        &[&[1], &[4]],
        &[&[0, 1, 6, 7], &[0, 1, 4, 5]],
    ),
    (
        [2, 2, 2, 2, 2, 2, 2, 2],
        &[&[7], &[2]],
        &[&[0, 1, 6, 7], &[2, 3, 4, 5]],
    ),
];

/// The runs as rules.
fn rules_of(alloc: Global, net: &Net, runs: &[&[u32]]) -> Result<Rules, Fail>
    ensures { IfOk result (λ rules. IsTrue (list_all (is_run net.now) rules)) }
{
    let mut lists = IdLists::new(alloc);
    for &run in runs {
        let mut edges = Ids::new(alloc);
        for &e in run {
            edges.push(e)?;
        }
        lists.push(edges)?;
    }
    if lists.len() > 8 {
        return Err(Fail::new("a few runs are wanted"));
    }
    let rules = Rules::build(alloc, net, &lists)?;
    Ok(rules)
}

/// Whether there is one number for each edge, and none is too great.
fn is_flow(net: &Net, flow: &[u64]) -> bool
    ensures one_each { IsTrue result → length flow.now ≡ edge_count net.now }
    ensures small { IsTrue result → All (λ w. w ≤ 1000000000000) flow.now }
{
    flow.len() == net.edges() as usize && flow.iter().all(|w| *w <= 1_000_000_000_000)
}

/// Whether the entry has this path and this weight.
fn is_entry(answer: &Answer, i: usize, path: &[u32], weight: u64) -> bool {
    i < answer.len() && answer.path(i).as_slice() == path && answer.weight(i) == weight
}

/// The path of one edge.
fn only_edge(alloc: Global) -> Result<Ids, AllocError> {
    let mut path = Ids::new(alloc);
    path.push(0)?;
    Ok(path)
}

#[test]
fn equal_paths_are_merged(rt: HostRuntime) -> Result<(), Fail> {
    let alloc = rt.alloc();
    let mut answer = Answer::new(alloc);
    answer.push(only_edge(alloc)?, 2)?;
    answer.push(only_edge(alloc)?, 3)?;
    let tidied = answer.tidy(alloc)?;
    assert_eq!(rt; tidied.len(), 1);
    assert!(rt; is_entry(&tidied, 0, &[0], 5));
    Ok(())
}

#[test]
fn runs_book_by_the_greatest_edges(rt: HostRuntime) -> Result<(), Fail> {
    let alloc = rt.alloc();
    let net = Net::build(alloc, 7, &DIAMONDS)?;
    for (guide, runs, paths) in BOOKINGS {
        let rules = rules_of(alloc, &net, runs)?;
        assert!(rt; is_flow(&net, &guide));
        let booked = book(alloc, &net, &guide, &rules)?;
        assert_eq!(rt; booked.len(), paths.len(), "{runs:?}");
        for (i, path) in paths.iter().enumerate() {
            assert!(rt; is_entry(&booked, i, path, 1), "{runs:?}");
        }
    }
    Ok(())
}

#[test]
fn the_rest_is_decomposed_over_the_booked_paths(rt: HostRuntime) -> Result<(), Fail> {
    let alloc = rt.alloc();
    let net = Net::build(alloc, 7, &DIAMONDS)?;
    let rules = rules_of(alloc, &net, &CROSSINGS)?;
    let flow = [5, 5, 2, 2, 4, 4, 3, 3];
    assert!(rt; is_flow(&net, &flow));
    let answer = decompose_with(alloc, &net, &flow, &rules)?;
    let entries: [(&[u32], u64); 4] = [
        (&[0, 1, 4, 5], 3),
        (&[0, 1, 6, 7], 2),
        (&[2, 3, 4, 5], 1),
        (&[2, 3, 6, 7], 1),
    ];
    assert_eq!(rt; answer.len(), entries.len());
    for (i, &(path, weight)) in entries.iter().enumerate() {
        assert!(rt; is_entry(&answer, i, path, weight), "{path:?}");
    }
    Ok(())
}

#[test]
fn too_many_units_are_refused(rt: HostRuntime) -> Result<(), Fail> {
    let alloc = rt.alloc();
    let net = Net::build(alloc, 7, &DIAMONDS)?;
    let rules = rules_of(alloc, &net, &CROSSINGS)?;
    let flow = [6, 6, 1, 1, 4, 4, 3, 3];
    assert!(rt; is_flow(&net, &flow));
    let refused = decompose_with(alloc, &net, &flow, &rules);
    assert!(rt;
        matches!(
            refused,
            Err(GreedyFault::Overbooked {
                edge: 2,
                booked: 2,
                flow: 1
            })
        )
    );
    Ok(())
}

#[test]
fn an_unbalanced_vertex_is_refused_first(rt: HostRuntime) -> Result<(), Fail> {
    let alloc = rt.alloc();
    let net = Net::build(alloc, 7, &DIAMONDS)?;
    let rules = rules_of(alloc, &net, &CROSSINGS)?;
    let flow = [6, 6, 1, 1, 4, 4, 3, 2];
    assert!(rt; is_flow(&net, &flow));
    let refused = decompose_with(alloc, &net, &flow, &rules);
    assert!(rt; matches!(refused, Err(GreedyFault::Unbalanced { vertex: 6 })));
    Ok(())
}

#[test]
fn two_answers_have_one_list_of_safe_runs(rt: HostRuntime) -> Result<(), Fail> {
    let alloc = rt.alloc();
    let net = Net::build(alloc, 7, &DIAMONDS)?;
    assert!(rt; net.edges() == 8);
    let flow = [5, 5, 2, 2, 4, 4, 3, 3];
    let rules = rules_of(alloc, &net, &CROSSINGS)?;
    let widest = decompose(alloc, &net, &flow)?;
    let crossing = decompose_with(alloc, &net, &flow, &rules)?;
    assert!(rt; widest.len() == 3 && crossing.len() == 4);
    let one = maximal_safe(alloc, &net, &flow, &widest)?;
    let other = maximal_safe(alloc, &net, &flow, &crossing)?;
    assert!(rt; one.len() == 3 && other.len() == 3);
    for i in 0..3 {
        assert!(rt; one.get(i).as_slice() == other.get(i).as_slice(), "run {i}");
    }
    Ok(())
}
