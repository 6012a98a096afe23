//! Searches.

use crate::problems::{DIAMONDS, DIAMONDS_FLOW, problem};
use branch_bound::{Outcome, Search};
use cert_check::{TreeVerdict, check_tree};
use dag_net::Net;
use decomposition::{Decision, Token};
use std::test::Fail;

#[test]
fn two_paths_are_refuted(rt: HostRuntime) -> Result<(), Fail> {
    let alloc = rt.alloc();
    let net = Net::build(alloc, 7, &DIAMONDS)?;
    let p = problem(alloc, &net, &DIAMONDS_FLOW)?;
    let d = Decision {
        slots: 2,
        limit: Some(0),
    };
    let mut search = Search::prepare(alloc, &net, &p, d, 20_000)?;
    for _ in 0..2 {
        assert_eq!(rt; search.run(), Outcome::Refuted);
        let tokens = search.tokens();
        assert!(rt; tokens.len() <= 20_000);
        let verdict = check_tree(alloc, &net, &p, &d, tokens)?;
        assert_eq!(rt; verdict, TreeVerdict::Refutes);
    }
    Ok(())
}

#[test]
fn three_paths_are_found(rt: HostRuntime) -> Result<(), Fail> {
    let alloc = rt.alloc();
    let net = Net::build(alloc, 7, &DIAMONDS)?;
    let p = problem(alloc, &net, &DIAMONDS_FLOW)?;
    let d = Decision {
        slots: 3,
        limit: Some(0),
    };
    let mut search = Search::prepare(alloc, &net, &p, d, 20_000)?;
    for _ in 0..2 {
        let outcome = search.run();
        assert!(rt; matches!(outcome, Outcome::Found));
        let answer = search.answer(alloc)?;
        assert!(rt; answer.len() == 3);
        let sum = u128::from(answer.weight(0))
            + u128::from(answer.weight(1))
            + u128::from(answer.weight(2));
        assert_eq!(rt; sum, 7);
    }
    Ok(())
}

#[test]
fn one_token_is_soon_spent(rt: HostRuntime) -> Result<(), Fail> {
    let alloc = rt.alloc();
    let net = Net::build(alloc, 7, &DIAMONDS)?;
    let p = problem(alloc, &net, &DIAMONDS_FLOW)?;
    let d = Decision {
        slots: 2,
        limit: Some(0),
    };
    let mut search = Search::prepare(alloc, &net, &p, d, 1)?;
    for _ in 0..2 {
        assert_eq!(rt; search.run(), Outcome::Spent);
        assert!(rt; search.tokens() == [Token::Step(0)].as_slice());
    }
    Ok(())
}
