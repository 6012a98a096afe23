//! Reports and the verdicts on them.

use crate::certs::{NARROW_FLOW, TWO_WAYS};
use crate::problems::{DIAMONDS, SQUARE};
use crate::said::{Claim, Shown, Tree, report, valid_problem, verdict_on};
use cert_check::{Verdict, check_report};
use dag_net::Net;
use decomposition::{Mode, Side, Token};
use graph_text::{Refusal, Why};
use report_terms::{Body, Mark};
use std::test::Fail;

/// Two paths from a source to a sink, as wide as these weights.
const SQUARE_FLOW: [(u64, u64); 4] = [(3, 3), (2, 2), (3, 3), (2, 2)];

/// The beginning of the tokens that refute one path for that flow, and all of them.
const STEP: [Token; 1] = [Token::Step(0)];

const ONE_PATH: [Token; 3] = [Token::Step(0), Token::Gap, Token::Gap];

/// What may be said of that flow.
const TWO_PATHS: Claim = Claim {
    mark: Mark::Optimal,
    lower: Some(2),
    upper: Some(2),
    paths: &[(&[0, 2], 3), (&[1, 3], 2)],
    cert: Shown::Wide(&[0, 1]),
    trail: None,
    safe: None,
};

/// The same, where a search for one path is spent.
const SPENT: Claim = Claim {
    mark: Mark::Bounds,
    lower: Some(1),
    cert: Shown::Wide(&[0]),
    trail: Some((1, Some(0), &STEP)),
    ..TWO_PATHS
};

/// What may be said of one path for that flow, where the error is to be least.
const ONE_ERROR: Claim = Claim {
    lower: Some(4),
    upper: Some(4),
    paths: &[(&[0, 2], 3)],
    cert: Shown::Tree((1, Some(3), &ONE_PATH)),
    ..TWO_PATHS
};

/// The same, where a search is spent.
const OPEN_ERROR: Claim = Claim {
    mark: Mark::Bounds,
    lower: Some(0),
    cert: Shown::Zero,
    ..ONE_ERROR
};

/// What may be said of a graph without an answer.
const NO_ANSWER: Claim = Claim {
    mark: Mark::Infeasible,
    lower: None,
    upper: None,
    paths: &[],
    cert: Shown::Zero,
    trail: None,
    safe: None,
};

/// Marks with their bounds, and whether they are accepted.
const MARKS: [(Mark, Option<u64>, Option<u64>, bool); 6] = [
    (Mark::Optimal, Some(2), Some(2), true),
    (Mark::Optimal, Some(2), Some(3), false),
    (Mark::Optimal, Some(2), None, false),
    (Mark::Optimal, None, None, false),
    (Mark::Infeasible, Some(2), Some(2), false),
    (Mark::Bounds, Some(2), Some(2), false),
];

/// Upper bounds and paths, and whether they are accepted.
const PATHS: [(u64, &[(&[u32], u64)], bool); 6] = [
    (2, &[(&[1, 3], 2), (&[0, 2], 3)], true),
    (3, &[(&[0, 2], 3), (&[1, 3], 2)], false),
    (3, &[(&[0, 2], 1), (&[0, 2], 2), (&[1, 3], 2)], false),
    (2, &[(&[0, 2], 3), (&[1, 3], 1)], false),
    (2, &[(&[0], 3), (&[1, 3], 2)], false),
    (2, &[(&[0, 9], 3), (&[1, 3], 2)], false),
];

/// Certificates of two paths, and whether they are accepted.
const CERTS: [(Shown, bool); 12] = [
    (Shown::Tree((1, Some(0), &ONE_PATH)), true),
    (Shown::Tree((1, Some(0), &STEP)), false),
    (Shown::Tree((2, Some(0), &ONE_PATH)), false),
    (Shown::Tree((0, Some(0), &[Token::Gap])), false),
    (Shown::Tree((1, Some(1), &ONE_PATH)), false),
    (Shown::Tree((1, None, &ONE_PATH)), false),
    (Shown::Wide(&[1, 0]), true),
    (Shown::Wide(&[0]), false),
    (Shown::Wide(&[0, 2]), false),
    (Shown::Wide(&[0, 4]), false),
    (Shown::Zero, false),
    (Shown::Cut(Side::Leaving, &[1]), false),
];

/// Trails where a search for one path is spent, and whether they are accepted.
const TRAILS: [(Option<Tree>, bool); 7] = [
    (Some((1, Some(0), &STEP)), true),
    (Some((1, Some(0), &[])), true),
    (Some((1, Some(0), &ONE_PATH)), false),
    (Some((1, Some(0), &[Token::Gap])), false),
    (Some((2, Some(0), &STEP)), false),
    (Some((1, None, &STEP)), false),
    (None, false),
];

/// Trails where a search for less than an error of 4 is spent, and whether they are accepted.
const ERROR_TRAILS: [(Option<Tree>, bool); 4] = [
    (Some((1, Some(2), &STEP)), true),
    (Some((1, Some(4), &STEP)), false),
    (Some((1, None, &STEP)), false),
    (Some((2, Some(2), &STEP)), false),
];

/// Lists of safe runs, and whether they are accepted.
const LISTS: [(&[&[u32]], bool); 4] = [
    (&[&[0, 2], &[1, 3]], true),
    (&[&[0, 2]], false),
    (&[&[1, 3], &[0, 2]], false),
    (&[&[0], &[1, 3]], false),
];

/// What shows that two rules through a narrow edge have no answer, and whether it is accepted.
const NARROW: [(Shown, bool); 5] = [
    (Shown::Crowd(3, &[0, 1]), true),
    (Shown::Crowd(3, &[0]), false),
    (Shown::Cut(Side::Leaving, &[1]), false),
    (Shown::Zero, false),
    (Shown::Wide(&[0]), false),
];

/// Yes, or the line whose clause fails.
fn yes_or(accepted: bool, line: u64) -> Verdict {
    if accepted {
        Verdict::Yes
    } else {
        Verdict::No { line }
    }
}

#[test]
fn marks_and_paths(rt: HostRuntime) -> Result<(), Fail> {
    let alloc = rt.alloc();
    let net = Net::build(alloc, 4, &SQUARE)?;
    let p = valid_problem(alloc, &net, Mode::Interval, &SQUARE_FLOW, &[])?;
    for (i, &(mark, lower, upper, accepted)) in MARKS.iter().enumerate() {
        let claim = Claim {
            mark,
            lower,
            upper,
            ..TWO_PATHS
        };
        let found = verdict_on(alloc, &net, &p, Mode::Interval, &claim)?;
        assert_eq!(rt; found, yes_or(accepted, 3), "mark {i}");
    }
    for (i, &(count, paths, accepted)) in PATHS.iter().enumerate() {
        let claim = Claim {
            lower: Some(count),
            upper: Some(count),
            paths,
            ..TWO_PATHS
        };
        let found = verdict_on(alloc, &net, &p, Mode::Interval, &claim)?;
        assert_eq!(rt; found, yes_or(accepted, 5), "paths {i}");
    }
    Ok(())
}

#[test]
fn certificates(rt: HostRuntime) -> Result<(), Fail> {
    let alloc = rt.alloc();
    let net = Net::build(alloc, 4, &SQUARE)?;
    let p = valid_problem(alloc, &net, Mode::Interval, &SQUARE_FLOW, &[])?;
    for (i, &(cert, accepted)) in CERTS.iter().enumerate() {
        let claim = Claim { cert, ..TWO_PATHS };
        let found = verdict_on(alloc, &net, &p, Mode::Interval, &claim)?;
        assert_eq!(rt; found, yes_or(accepted, 8), "certificate {i}");
    }
    Ok(())
}

#[test]
fn trails(rt: HostRuntime) -> Result<(), Fail> {
    let alloc = rt.alloc();
    let net = Net::build(alloc, 4, &SQUARE)?;
    let p = valid_problem(alloc, &net, Mode::Interval, &SQUARE_FLOW, &[])?;
    for (i, &(trail, accepted)) in TRAILS.iter().enumerate() {
        let claim = Claim { trail, ..SPENT };
        let found = verdict_on(alloc, &net, &p, Mode::Interval, &claim)?;
        assert_eq!(rt; found, yes_or(accepted, 10), "trail {i}");
    }
    Ok(())
}

#[test]
fn errors_of_one_path(rt: HostRuntime) -> Result<(), Fail> {
    let alloc = rt.alloc();
    let net = Net::build(alloc, 4, &SQUARE)?;
    let mode = Mode::Abs { k: 1 };
    let p = valid_problem(alloc, &net, mode, &SQUARE_FLOW, &[])?;
    assert_eq!(rt;
        verdict_on(alloc, &net, &p, mode, &ONE_ERROR)?,
        Verdict::Yes
    );
    for (i, &(trail, accepted)) in ERROR_TRAILS.iter().enumerate() {
        let claim = Claim {
            trail,
            ..OPEN_ERROR
        };
        let found = verdict_on(alloc, &net, &p, mode, &claim)?;
        assert_eq!(rt; found, yes_or(accepted, 8), "trail {i}");
    }
    Ok(())
}

#[test]
fn safe_runs(rt: HostRuntime) -> Result<(), Fail> {
    let alloc = rt.alloc();
    let net = Net::build(alloc, 4, &SQUARE)?;
    let p = valid_problem(alloc, &net, Mode::Exact, &SQUARE_FLOW, &[])?;
    for (i, &(runs, accepted)) in LISTS.iter().enumerate() {
        let claim = Claim {
            safe: Some(runs),
            ..TWO_PATHS
        };
        let found = verdict_on(alloc, &net, &p, Mode::Exact, &claim)?;
        assert_eq!(rt; found, yes_or(accepted, 11), "list {i}");
    }
    Ok(())
}

#[test]
fn nothing_meets(rt: HostRuntime) -> Result<(), Fail> {
    let alloc = rt.alloc();
    let net = Net::build(alloc, 7, &DIAMONDS)?;
    let p = valid_problem(alloc, &net, Mode::Exact, &NARROW_FLOW, &TWO_WAYS)?;
    for (i, &(cert, accepted)) in NARROW.iter().enumerate() {
        let claim = Claim { cert, ..NO_ANSWER };
        let found = verdict_on(alloc, &net, &p, Mode::Exact, &claim)?;
        assert_eq!(rt; found, yes_or(accepted, 6), "certificate {i}");
    }
    Ok(())
}

#[test]
fn other_models_and_refusals(rt: HostRuntime) -> Result<(), Fail> {
    let alloc = rt.alloc();
    let net = Net::build(alloc, 4, &SQUARE)?;
    let p = valid_problem(alloc, &net, Mode::Interval, &SQUARE_FLOW, &[])?;
    for (mode, line) in [(Mode::Interval, 3), (Mode::Exact, 2)] {
        let why = Why::Cycle;
        let report = report(alloc, mode, Body::Refused(Refusal { line: 3, why }));
        let found = check_report(alloc, &net, &p, &Mode::Interval, &report)?;
        assert_eq!(rt; found, Verdict::No { line }, "{mode:?}");
    }
    Ok(())
}
