//! Where the lines of a report stand.

ghost use Rattle.std.specs.Prelude.{◌≡◌, ◌+◌, ◌≤◌, ◌<◌, ◌^◌};
ghost use Rattle.cert_check.specs.Verdict.{item_count, trail_lines, place_of, IsShort};
ghost use Rattle.cert_check.specs.Verdict.Line.{CertLine, TrailLine, SafeLine};

use report_terms::{Cert, Solved, Trail};

/// How many lines stand below the line of a certificate: fewer than 2^63, as in every list in memory.
fn item_count(cert: &Cert) -> u64
    ensures count { result ≡ item_count cert.now }
    ensures small { result < 2 ^ 63 }
{
    match cert {
        Cert::Zero => 0,
        Cert::Wide(edges) => edges.as_slice().len() as u64,
        Cert::Tree(tree) => tree.tokens.as_slice().len() as u64,
        Cert::Cut(_, vertices) => vertices.as_slice().len() as u64,
        Cert::Crowd(_, rules) => rules.as_slice().len() as u64,
    }
}

/// How many lines a trail has.
fn trail_lines(trail: &Option<Trail>) -> u64
    requires { trail_lines trail.now ≤ 2 ^ 32 }
    ensures { result ≡ trail_lines trail.now }
{
    match trail {
        None => 0,
        Some(trail) => 1 + trail.tokens.len() as u64,
    }
}

/// Where the line of the certificate stands.
pub fn cert_place(solved: &Solved) -> u64
    requires { IsShort solved.now }
    ensures { result ≡ place_of solved.now CertLine }
{
    6 + solved.paths.len() as u64
}

/// Where the line of the trail stands.
pub fn trail_place(solved: &Solved) -> u64
    requires { IsShort solved.now }
    ensures place { result ≡ place_of solved.now TrailLine }

    // Behind it the lines of a trail can still be counted.
    ensures small { result + 2 ^ 32 < 2 ^ 64 }
{
    cert_place(solved) + 1 + item_count(&solved.cert)
}

/// Where the line of the safe runs stands.
pub fn safe_place(solved: &Solved) -> u64
    requires { IsShort solved.now }
    ensures { result ≡ place_of solved.now SafeLine }
{
    trail_place(solved) + trail_lines(&solved.trail)
}
