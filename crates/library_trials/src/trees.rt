//! Lists of tokens and what they are for a decision.

use crate::problems::{DIAMONDS, DIAMONDS_FLOW, SQUARE, problem};
use cert_check::{TreeVerdict, check_tree};
use dag_net::Net;
use decomposition::{Decision, Token};
use std::test::Fail;

/// Tokens that refute one path with an error of at most 1 for two edges in a row of weights 3 and 5, and one too many.
const NOISY: [Token; 9] = [
    Token::Step(0),
    Token::Split(0),
    Token::Gap,
    Token::Split(0),
    Token::Split(0),
    Token::Gap,
    Token::Gap,
    Token::Gap,
    Token::Gap,
];

/// Tokens that refute two paths for the flow on the diamonds.
const TWO_PATHS: [Token; 16] = [
    Token::Step(0),
    Token::Step(1),
    Token::Gap,
    Token::Split(0),
    Token::Gap,
    Token::Split(0),
    Token::Gap,
    Token::Step(0),
    Token::Step(0),
    Token::Gap,
    Token::Gap,
    Token::Step(1),
    Token::Split(1),
    Token::Gap,
    Token::Gap,
    Token::Gap,
];

#[test]
fn a_row_of_two_edges(rt: HostRuntime) -> Result<(), Fail> {
    let alloc = rt.alloc();
    let net = Net::build(alloc, 3, &[(0, 1), (1, 2)])?;
    let p = problem(alloc, &net, &[(3, 3), (5, 5)])?;
    let d = Decision {
        slots: 1,
        limit: Some(1),
    };
    let rows: [(&[Token], TreeVerdict); 6] = [
        (&NOISY[..8], TreeVerdict::Refutes),
        (&NOISY[..7], TreeVerdict::Pending(1)),
        (&NOISY, TreeVerdict::Illegal(8)),
        (&[Token::Gap], TreeVerdict::Illegal(0)),
        (&[Token::Step(1)], TreeVerdict::Illegal(0)),
        (&[], TreeVerdict::Pending(1)),
    ];
    for (tokens, verdict) in rows {
        assert!(rt; tokens.len() < 10);
        let found = check_tree(alloc, &net, &p, &d, tokens)?;
        assert_eq!(rt; found, verdict, "{tokens:?}");
    }
    Ok(())
}

#[test]
fn two_paths_for_the_diamonds(rt: HostRuntime) -> Result<(), Fail> {
    let alloc = rt.alloc();
    let net = Net::build(alloc, 7, &DIAMONDS)?;
    let p = problem(alloc, &net, &DIAMONDS_FLOW)?;
    let d = Decision {
        slots: 2,
        limit: Some(0),
    };
    let rows: [(&[Token], TreeVerdict); 4] = [
        (&TWO_PATHS, TreeVerdict::Refutes),
        (&TWO_PATHS[..15], TreeVerdict::Pending(1)),
        (&[Token::Gap], TreeVerdict::Illegal(0)),
        (&[Token::Miss(0)], TreeVerdict::Illegal(0)),
    ];
    for (tokens, verdict) in rows {
        assert!(rt; tokens.len() < 20);
        let found = check_tree(alloc, &net, &p, &d, tokens)?;
        assert_eq!(rt; found, verdict, "{tokens:?}");
    }
    Ok(())
}

#[test]
fn each_token_leaves_its_boxes(rt: HostRuntime) -> Result<(), Fail> {
    let alloc = rt.alloc();
    let net = Net::build(alloc, 4, &SQUARE)?;
    let p = problem(alloc, &net, &[(0, 5), (0, 5), (0, 5), (0, 5)])?;
    let d = Decision {
        slots: 2,
        limit: None,
    };
    let tokens = [Token::Step(0), Token::Split(0)];
    for (count, left) in [(0, 1), (1, 2), (2, 3)] {
        assert!(rt; count <= 2);
        let verdict = check_tree(alloc, &net, &p, &d, &tokens[..count])?;
        assert_eq!(rt; verdict, TreeVerdict::Pending(left));
    }
    Ok(())
}
