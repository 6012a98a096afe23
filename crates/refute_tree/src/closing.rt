//! Which token closes the first box.

ghost use Rattle.std.specs.Prelude.{◌≡◌, ◌<◌, [], length, slice_index_or, vec_len, IsTrue};
ghost use Rattle.std.specs.List.{list_all};
ghost use Rattle.decomposition.specs.Graph.{is_run};
ghost use Rattle.decomposition.specs.Boxes.{misses};
ghost use Rattle.decomposition.specs.Tokens.{is_above};
ghost use Rattle.flow_models.specs.Problem.{instance};
ghost use Rattle.refute_tree.specs.Ends.{AreSeen, IsOnWay, IsSummedUp};
ghost use Rattle.refute_tree.specs.Front.{closing_token};
ghost use Rattle.refute_tree.specs.OneBox.{place_of, IsOneBox};
ghost use Rattle.refute_tree.specs.Sums.{SumsUp};

use crate::beside::Beside;
use crate::misses::{is_ahead, is_on_way};
use crate::one_box::OneBox;
use crate::sums::Weights;
use dag_net::Net;
use decomposition::Token;
use flow_models::Problem;

/// Whether a number is above a limit; nothing is above no limit.
pub fn is_above(limit: Option<u64>, number: u128) -> bool
    ensures { result ≡ is_above limit number }
{
    match limit {
        Some(limit) => number > u128::from(limit),
        None => false,
    }
}

/// Whether a slot of the box of a weight that may be positive is known to overlap the rule.
fn is_known(one: &OneBox, beside: &Beside, rule: u32) -> bool
    requires rule { rule < length beside.now.known.rules.now }
    requires room { vec_len beside.now.sums.uppers ≡ one.now.links.slots }
    requires known { AreSeen beside.now.known.rules.now one.now.links.links beside.now.known }
    ensures { IsTrue result → IsOnWay beside.now.sums.uppers.items one.now.links (slice_index_or beside.now.known.rules.now rule []) }
{
    match beside.known.slot_on(&one.links, rule) {
        Some(slot) => beside.sums.uppers[slot as usize] >= 1,
        None => false,
    }
}

/// Whether no slot of the box of a weight that may be positive may contain the rule, by the walk of each slot.
fn is_missed_by_walks(net: &Net, problem: &Problem, one: &OneBox, sums: &Weights, rule: u32) -> bool
    requires rules { IsTrue (list_all (is_run net.now) problem.now.rules) }
    requires rule { rule < length problem.now.rules }
    requires kept { IsOneBox net.now one.now }
    requires room { vec_len sums.now.uppers ≡ length one.now.ranges.items }
    requires sums { SumsUp (instance net.now problem.now) (place_of one.now).box sums.now }
    ensures { result ≡ misses (instance net.now problem.now) (place_of one.now).box rule }
{
    let run = problem.rules.run(rule);
    !is_ahead(net, one, sums, run) && !is_on_way(net, one, sums, run)
}

/// Whether no slot of the box of a weight that may be positive may contain the rule.
pub fn is_missed(net: &Net, problem: &Problem, one: &OneBox, beside: &Beside, rule: u32) -> bool
    requires rules { IsTrue (list_all (is_run net.now) problem.now.rules) }
    requires rule { rule < length problem.now.rules }
    requires kept { IsOneBox net.now one.now }
    requires beside { IsSummedUp (instance net.now problem.now) one.now beside.now }
    ensures { result ≡ misses (instance net.now problem.now) (place_of one.now).box rule }
{
    !is_known(one, beside, rule) && is_missed_by_walks(net, problem, one, &beside.sums, rule)
}

/// The token that closes the box, where there is one: the gap where it is legal, else the first legal miss.
pub fn closing_token(
    net: &Net,
    problem: &Problem,
    limit: Option<u64>,
    one: &OneBox,
    beside: &Beside,
) -> Option<Token>
    requires rules { IsTrue (list_all (is_run net.now) problem.now.rules) }
    requires kept { IsOneBox net.now one.now }
    requires beside { IsSummedUp (instance net.now problem.now) one.now beside.now }
    ensures { result ≡ closing_token (instance net.now problem.now) limit (place_of one.now).box }
{
    if is_above(limit, beside.sums.gap) {
        return Some(Token::Gap);
    }
    for rule in 0..problem.rules.len() {
        if is_missed(net, problem, one, beside, rule) {
            return Some(Token::Miss(rule));
        }
    }
    None
}
