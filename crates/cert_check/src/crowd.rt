//! Crowds: rules through one edge, more than it can carry paths, no two of which lie on one path.

ghost use Rattle.std.specs.Prelude.{◌≡◌, ◌<◌, ◌↔◌, ◌&&◌, ℕ, List, [], ◌∷◌, nat_lt, length, slice_index_or, All, IsTrue};
ghost use Rattle.std.specs.List.{list_all};
ghost use Rattle.decomposition.specs.Graph.{edge_count, is_run, contains_run};
ghost use Rattle.decomposition.specs.Answer.{IsAnswer, Covers};
ghost use Rattle.decomposition.specs.Instance.{error, range};
ghost use Rattle.decomposition.specs.Certificates.{AreRunsApart, AllRunsApart, IsCrowd};
ghost use Rattle.flow_models.specs.Problem.{instance};

use dag_net::Net;
use flow_models::Problem;

/// Whether the number is a rule whose run has the edge.
fn goes_through(p: &Problem, edge: u32, rule: u32) -> bool
    ensures { result ≡ (nat_lt rule (length p.now.rules) && contains_run (slice_index_or p.now.rules rule []) (edge ∷ [])) }
{
    rule < p.rules.len() && p.rules.run(rule).contains(&edge)
}

/// Whether each number is a rule whose run has the edge.
fn all_go_through(p: &Problem, edge: u32, rules: &[u32]) -> bool
    ensures { result ≡ list_all (λ c. nat_lt c (length p.now.rules) && contains_run (slice_index_or p.now.rules c []) (edge ∷ [])) rules.now }
{
    rules.iter().all(|&rule| goes_through(p, edge, rule))
}

/// Whether the number is an edge whose upper bound is below a count.
fn carries_fewer(net: &Net, p: &Problem, edge: u32, count: usize) -> bool
    requires { length p.now.ranges ≡ edge_count net.now }
    ensures { IsTrue result ↔ ((edge < edge_count net.now) × ((range (instance net.now p.now) edge).hi < count)) }
{
    edge < net.edges() && p.ranges.get(edge as usize).hi < count as u64
}

/// Whether no path contains the rule and one of the others.
fn is_apart(net: &Net, p: &Problem, rule: u32, others: &[u32]) -> bool
    requires rule { rule < length p.now.rules }
    requires others { All (λ d. d < length p.now.rules) others.now }
    requires runs { IsTrue (list_all (is_run net.now) p.now.rules) }
    ensures { IsTrue result ↔ AreRunsApart (instance net.now p.now) rule others.now }
{
    for &other in others {
        if p.rules.compatible(net, rule, other) {
            return false;
        }
    }
    true
}

/// Whether no path contains two of the rules.
fn are_apart(net: &Net, p: &Problem, rules: &[u32]) -> bool
    requires rules { All (λ c. c < length p.now.rules) rules.now }
    requires runs { IsTrue (list_all (is_run net.now) p.now.rules) }
    ensures { IsTrue result ↔ AllRunsApart (instance net.now p.now) rules.now }
{
    for i in 0..rules.len() {
        if !is_apart(net, p, rules[i], &rules[i + 1..]) {
            return false;
        }
    }
    true
}

/// Whether the rules are a crowd: each goes through the edge, they are more than its upper bound, and no two lie on one
/// path. Where so, no answer of error 0 covers. A number that is no edge or no rule, and a rule that stands twice, make
/// the answer no. Each two entries are looked at once: for k entries that is at most k * (k - 1) / 2 comparisons of two
/// runs, each of about as many steps as the two have edges.
pub fn check_crowd(net: &Net, p: &Problem, edge: u32, rules: &[u32]) -> bool
    requires ranged { length p.now.ranges ≡ edge_count net.now }
    requires runs { IsTrue (list_all (is_run net.now) p.now.rules) }
    ensures exact { IsTrue result ↔ IsCrowd (instance net.now p.now) edge rules.now }
    ensures refutes { IsTrue result → (a : List (List ℕ × ℕ)) → IsAnswer net.now a → Covers p.now.rules a → error (instance net.now p.now) a ≡ 0 → ⊥ }
{
    carries_fewer(net, p, edge, rules.len())
        && all_go_through(p, edge, rules)
        && are_apart(net, p, rules)
}
