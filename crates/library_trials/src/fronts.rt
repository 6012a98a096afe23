//! Cells and the lists of boxes that hold them.

use crate::problems::{SQUARE, problem};
use dag_net::Net;
use decomposition::{Decision, Token};
use link_cells::{Cells, Tail};
use refute_tree::Front;
use std::test::Fail;

#[test]
fn full_cells_take_no_edge(rt: HostRuntime) -> Result<(), Fail> {
    let mut cells = Cells::with_capacity(rt.alloc(), 2)?;
    let first = cells.push(4, Tail::EMPTY).unwrap();
    let second = cells.push(7, first).unwrap();
    assert_eq!(rt; cells.edge(second), 7);
    assert_eq!(rt; cells.edge(first), 4);
    assert!(rt; cells.below(first).is_empty());
    assert!(rt; cells.push(1, second).is_none());
    Ok(())
}

#[test]
fn lists_share_their_beginning(rt: HostRuntime) -> Result<(), Fail> {
    let mut cells = Cells::with_capacity(rt.alloc(), 4)?;
    let a = cells.push(7, Tail::EMPTY).unwrap();
    let b = cells.push(8, a).unwrap();
    let c = cells.push(9, a).unwrap();
    for (tail, edge) in [(a, 7), (b, 8), (c, 9)] {
        assert_eq!(rt; cells.edge(tail), edge);
    }
    assert_eq!(rt; cells.edge(cells.below(b)), 7);
    assert_eq!(rt; cells.edge(cells.below(c)), 7);
    cells.cut(2);
    assert!(rt; cells.push(5, b).is_some());
    assert_eq!(rt; cells.len(), 3);
    Ok(())
}

#[test]
fn a_step_on_the_only_edge(rt: HostRuntime) -> Result<(), Fail> {
    let alloc = rt.alloc();
    let net = Net::build(alloc, 3, &[(0, 1), (1, 2)])?;
    let p = problem(alloc, &net, &[(3, 3), (5, 5)])?;
    let d = Decision {
        slots: 1,
        limit: Some(1),
    };
    let mut front = Front::root(alloc, &net, &p, &d, 8)?;
    assert!(rt; front.apply(Token::Step(0)));
    assert_eq!(rt; front.left(), 1);
    assert_eq!(rt; front.used(), 1);
    Ok(())
}

#[test]
fn a_step_takes_a_slot_off_the_other_way(rt: HostRuntime) -> Result<(), Fail> {
    let alloc = rt.alloc();
    let net = Net::build(alloc, 4, &SQUARE)?;
    let p = problem(alloc, &net, &[(3, 3), (2, 2), (3, 3), (2, 2)])?;
    let d = Decision {
        slots: 1,
        limit: None,
    };
    let mut front = Front::root(alloc, &net, &p, &d, 8)?;
    assert_eq!(rt; front.gap(), 0);
    assert!(rt; front.apply(Token::Step(0)));
    assert!(rt; front.left() == 2);
    assert_eq!(rt; front.gap(), 4);
    Ok(())
}

#[test]
fn no_path_answers_for_no_edge(rt: HostRuntime) -> Result<(), Fail> {
    let alloc = rt.alloc();
    let net = Net::build(alloc, 0, &[])?;
    let p = problem(alloc, &net, &[])?;
    let d = Decision {
        slots: 0,
        limit: Some(0),
    };
    let front = Front::root(alloc, &net, &p, &d, 1)?;
    let answer = front.answer(alloc)?.map(|a| a.len());
    assert_eq!(rt; answer, Some(0));
    Ok(())
}
