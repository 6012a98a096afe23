//! Cuts and crowds, and lists that are none.

ghost use Rattle.std.specs.Prelude.{◌≡◌, ◌==◌, length, IfOk, IsTrue};
ghost use Rattle.std.specs.List.{list_all, IsDistinct};
ghost use Rattle.std.specs.Cmp.Lexicographic.{pointwise};
ghost use Rattle.decomposition.specs.Graph.{edge_count, is_run};
ghost use Rattle.decomposition.specs.Instance.{greatest_hi};

use crate::problems::{DIAMONDS, problem};
use cert_check::{check_crowd, check_cut};
use dag_net::{IdLists, Ids, Net, Range, Ranges};
use decomposition::Side;
use flow_models::Problem;
use std::alloc::Global;
use std::test::Fail;
use subpath_rules::Rules;

/// A flow on the diamonds that carries one path from the source over the second vertex.
pub const NARROW_FLOW: [(u64, u64); 8] = [
    (6, 6),
    (6, 6),
    (1, 1),
    (1, 1),
    (4, 4),
    (4, 4),
    (3, 3),
    (3, 3),
];

/// Two rules through the narrow edge, one to each side of the second diamond.
pub const TWO_WAYS: [[u32; 2]; 2] = [[3, 4], [3, 6]];

/// The problem with these least and greatest weights, one of each for each edge, and these rules of two edges each.
pub fn ruled_problem(
    alloc: Global,
    net: &Net,
    bounds: &[(u64, u64)],
    listed: &[[u32; 2]],
) -> Result<Problem, Fail>
    ensures ranged { IfOk result (λ p. length p.ranges ≡ edge_count net.now) }
    ensures rules { IfOk result (λ p. IsTrue (list_all (is_run net.now) p.rules)) }
    ensures distinct { IfOk result (λ p. IsDistinct (pointwise (λ d e. d == e)) p.rules) }
    ensures cap { IfOk result (λ p. p.cap ≡ greatest_hi p.ranges) }
{
    let plain = problem(alloc, net, bounds)?;
    let mut runs = IdLists::new(alloc);
    for &[first, second] in listed {
        let mut run = Ids::new(alloc);
        run.push(first)?;
        run.push(second)?;
        runs.push(run)?;
    }
    if runs.len() > 9 {
        return Err(Fail::new("few rules are wanted"));
    }
    let rules = Rules::build(alloc, net, &runs)?;
    Ok(Problem::new(net, plain.ranges, rules))
}

#[test]
fn vertices_that_are_a_cut(rt: HostRuntime) -> Result<(), Fail> {
    let alloc = rt.alloc();
    let net = Net::build(alloc, 3, &[(0, 1), (1, 2)])?;
    let more = [(3, 3), (5, 5)];
    let less = [(5, 5), (3, 3)];
    let rows: [(&[(u64, u64)], Side, &[u32], bool); 12] = [
        (&more, Side::Leaving, &[1], true),
        (&more, Side::Leaving, &[1, 1], true),
        (&more, Side::Entering, &[1], false),
        (&more, Side::Leaving, &[0, 1], false),
        (&more, Side::Leaving, &[1, 3], false),
        (&more, Side::Leaving, &[], false),
        (&less, Side::Entering, &[1], true),
        (&less, Side::Entering, &[0, 1], false),
        (&less, Side::Entering, &[1, 2], false),
        (&less, Side::Entering, &[2], false),
        (&[(3, 5), (5, 7)], Side::Leaving, &[1], false),
        (&[(3, 4), (5, 7)], Side::Leaving, &[1], true),
    ];
    for (bounds, side, vertices, is_cut) in rows {
        let p = problem(alloc, &net, bounds)?;
        let found = check_cut(&net, &p, side, vertices);
        assert_eq!(rt; found, is_cut, "{bounds:?} {side:?} {vertices:?}");
    }
    Ok(())
}

#[test]
fn rules_that_are_a_crowd(rt: HostRuntime) -> Result<(), Fail> {
    let alloc = rt.alloc();
    let net = Net::build(alloc, 7, &DIAMONDS)?;
    let p = ruled_problem(alloc, &net, &NARROW_FLOW, &TWO_WAYS)?;
    let rows: [(u32, &[u32], bool); 8] = [
        (3, &[0, 1], true),
        (3, &[1, 0], true),
        (3, &[0], false),
        (3, &[0, 0], false),
        (3, &[0, 2], false),
        (2, &[0, 1], false),
        (8, &[0, 1], false),
        (3, &[], false),
    ];
    for (edge, rules, is_crowd) in rows {
        let found = check_crowd(&net, &p, edge, rules);
        assert_eq!(rt; found, is_crowd, "{edge} {rules:?}");
    }
    Ok(())
}
