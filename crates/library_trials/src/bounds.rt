//! Flows within ranges, and the cuts that show that there are none.

ghost use Rattle.std.specs.Prelude.{◌≡◌, ◌≤◌, ◌↔◌, ◌&&◌, nat_le, IsTrue, All};
ghost use Rattle.std.specs.List.{list_all};

use dag_net::{Net, Range};
use lower_flow::{FlowOrCut, bounded_flow, bounded_flow_near, wide_flow};
use std::alloc::Global;
use std::test::Fail;

/// The tail, the head, the least and the greatest flow of an edge.
type Bounded = (u32, u32, u64, u64);

/// What must be answered: some flow, or the cut with these vertices.
enum Wanted {
    Flow,
    In(&'static [u32]),
    Out(&'static [u32]),
}

/// The greatest upper bound.
const MOST: u64 = 1_000_000_000_000;

/// What a flow may begin near: no numbers, too great ones, and more than there are edges.
const NEAR: [&[u64]; 3] = [&[], &[7, u64::MAX], &[2, 2, 2, 2, 2, 2, 2, 2, 2, 2, 2, 2]];

/// The greatest upper bound of a wide range.
const WIDE: u64 = 4096 * MOST;

/// How many vertices there are, the edges, and what must be answered.
const ROWS: [(&str, u32, &[Bounded], Wanted); 9] = [
    ("nothing", 0, &[], Wanted::Flow),
    (
        "more comes than may go",
        3,
        &[(0, 1, 5, 5), (1, 2, 1, 2)],
        Wanted::In(&[1]),
    ),
    (
        "more must go than may come",
        3,
        &[(0, 1, 1, 2), (1, 2, 5, 5)],
        Wanted::Out(&[1]),
    ),
    (
        "more comes than may go, two edges on",
        4,
        &[(0, 1, 3, 9), (1, 2, 0, 9), (2, 3, 0, 2)],
        Wanted::In(&[1, 2]),
    ),
    (
        "more must go than may come, two edges before",
        4,
        &[(0, 1, 0, 2), (1, 2, 0, 9), (2, 3, 3, 9)],
        Wanted::Out(&[1, 2]),
    ),
    (
        "two or three units",
        3,
        &[(0, 1, 1, 3), (1, 2, 2, 4)],
        Wanted::Flow,
    ),
    // The unit from 1 first goes by 2, where only the one from 6 can go: that from 1 turns back there, and goes by 4 and 5.
    (
        "a way back over an edge",
        8,
        &[
            (0, 1, 1, 1),
            (1, 2, 0, 1),
            (2, 3, 0, 1),
            (1, 4, 0, 1),
            (4, 5, 0, 1),
            (5, 3, 0, 1),
            (0, 6, 1, 1),
            (6, 7, 0, 1),
            (7, 2, 0, 1),
        ],
        Wanted::Flow,
    ),
    (
        "the greatest numbers",
        3,
        &[(0, 1, MOST, MOST), (1, 2, 0, MOST)],
        Wanted::Flow,
    ),
    (
        "twice the greatest number",
        4,
        &[(0, 2, MOST, MOST), (1, 2, MOST, MOST), (2, 3, 0, MOST)],
        Wanted::In(&[2]),
    ),
];

/// Whether each range has its bounds in order, and none is too great.
fn are_bounded(ranges: &[Range], most: u64) -> bool
    ensures { result ≡ list_all (λ r. nat_le r.lo r.hi && nat_le r.hi most) ranges.now }
{
    ranges.iter().all(|r| r.lo <= r.hi && r.hi <= most)
}

/// Whether no number is too great.
fn are_small(flow: &[u64]) -> bool
    ensures { IsTrue result ↔ All (λ units. units ≤ 1000000000000) flow.now }
{
    flow.iter().all(|units| *units <= 1_000_000_000_000)
}

/// Whether there is a number within its range for each edge, and each inner vertex is balanced.
fn is_flow(alloc: Global, net: &Net, ranges: &[Range], flow: &[u64]) -> Result<bool, Fail> {
    if flow.len() != net.edges() as usize {
        return Ok(false);
    }
    if !are_small(flow) {
        return Ok(false);
    }
    let within = flow
        .iter()
        .zip(ranges)
        .all(|(f, r)| r.lo <= *f && *f <= r.hi);
    Ok(within && net.first_unbalanced(alloc, flow)?.is_none())
}

/// Whether the answer for these edges is the wanted one.
fn is_answered(
    alloc: Global,
    vertices: u32,
    edges: &[Bounded],
    wanted: &Wanted,
) -> Result<bool, Fail> {
    let mut ends = Vec::new(alloc);
    let mut ranges = Vec::new(alloc);
    for &(tail, head, lo, hi) in edges {
        ends.push((tail, head))?;
        ranges.push(Range { lo, hi })?;
    }
    if vertices > 8192 || ends.len() > 4096 {
        return Err(Fail::new("a small net is wanted"));
    }
    let net = Net::build(alloc, vertices, &ends)?;
    if ranges.len() != net.edges() as usize || !are_bounded(&ranges, 1_000_000_000_000) {
        return Err(Fail::new("one range for each edge is wanted"));
    }
    for near in &NEAR {
        let answer = bounded_flow_near(alloc, &net, &ranges, near)?;
        if !is_of_kind(alloc, &net, &ranges, &answer, wanted)? {
            return Ok(false);
        }
    }
    match (bounded_flow(alloc, &net, &ranges)?, wanted) {
        (FlowOrCut::Flow(flow), Wanted::Flow) => is_flow(alloc, &net, &ranges, flow.as_slice()),
        (FlowOrCut::InCut(cut), Wanted::In(vertices)) => Ok(cut.as_slice() == *vertices),
        (FlowOrCut::OutCut(cut), Wanted::Out(vertices)) => Ok(cut.as_slice() == *vertices),
        _ => Ok(false),
    }
}

/// Whether the answer is a flow, or a cut of the side that is wanted.
fn is_of_kind(
    alloc: Global,
    net: &Net,
    ranges: &[Range],
    answer: &FlowOrCut,
    wanted: &Wanted,
) -> Result<bool, Fail> {
    match (answer, wanted) {
        (FlowOrCut::Flow(flow), Wanted::Flow) => is_flow(alloc, net, ranges, flow.as_slice()),
        (FlowOrCut::InCut(_), Wanted::In(_)) | (FlowOrCut::OutCut(_), Wanted::Out(_)) => Ok(true),
        _ => Ok(false),
    }
}

#[test]
fn ranges_have_a_flow_or_a_cut(rt: HostRuntime) -> Result<(), Fail> {
    let alloc = rt.alloc();
    for (name, vertices, edges, wanted) in &ROWS {
        assert!(rt; is_answered(alloc, *vertices, edges, wanted)?, "{name}");
    }
    Ok(())
}

#[test]
fn wide_ranges_have_a_flow(rt: HostRuntime) -> Result<(), Fail> {
    let alloc = rt.alloc();
    let net = Net::build(alloc, 3, &[(0, 1), (1, 2)])?;
    let ranges = [Range { lo: WIDE, hi: WIDE }, Range { lo: 0, hi: WIDE }];
    if ranges.len() != net.edges() as usize || !are_bounded(&ranges, 4_096_000_000_000_000) {
        return Err(Fail::new("one range for each edge is wanted"));
    }
    match wide_flow(alloc, &net, &ranges)? {
        FlowOrCut::Flow(flow) => assert!(rt; flow.as_slice() == [WIDE, WIDE].as_slice()),
        _ => assert!(rt; false, "there is a flow"),
    }
    Ok(())
}
