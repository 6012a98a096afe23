//! Whether levels prove that a flow is nearest to the weights.
//!
//! A flow and levels are checked each on its own, in passes over the edges that keep one running sum. The balance of a vertex is summed up over all edges, since nothing is
//! allocated.

ghost use Rattle.std.specs.Prelude.{◌≡◌, ◌<◌, ◌≤◌, ◌↔◌, ◌^◌, ℕ, ℤ, pos, negsuc, ◌≤ℤ◌, ◌+ℤ◌, length, slice_index, slice_index_or, All, IsTrue};
ghost use Rattle.decomposition.specs.Graph.{edge_count, is_inner, IsNet};
ghost use Rattle.decomposition.specs.Flow.{flow_into, flow_out_of, IsBalanced, IsBalancedAt};
ghost use Rattle.error_flow.specs.Limits.{most_weight};
ghost use Rattle.error_flow.specs.Nearest.{change, IsNearest};
ghost use Rattle.error_flow.specs.Certificate.{level_at, rise, share, bound, IsZeroAtEnds, IsGentle, IsSmallLevel, ProvesNearest};

use dag_net::Net;

/// The greatest distance of a level from 0.
const GREATEST_LEVEL: i64 = 4_294_967_296;

/// Whether each number is below 2^63.
fn are_small_numbers(flow: &[u64]) -> bool
    ensures { IsTrue result ↔ All (λ units. units < 2 ^ 63) flow.now }
{
    flow.iter().all(|units| *units < 1 << 63)
}

/// Whether each level lies from -2^32 to 2^32.
fn are_small_levels(levels: &[i64]) -> bool
    ensures { IsTrue result ↔ All IsSmallLevel levels.now }
{
    levels.iter().all(|level| -GREATEST_LEVEL <= *level && *level <= GREATEST_LEVEL)
}

/// Whether as much enters the vertex as leaves it.
fn is_balanced_at(net: &Net, flow: &[u64], v: u32) -> bool
    requires one_each { length flow.now ≡ edge_count net.now }
    ensures { IsTrue result ↔ IsBalancedAt net.now (slice_index flow.now) v }
{
    let mut into = 0u128;
    let mut out = 0u128;
    for e in 0..net.edges() {
        if net.head(e) == v {
            into += u128::from(flow[e as usize]);
        }
        if net.tail(e) == v {
            out += u128::from(flow[e as usize]);
        }
    }
    into == out
}

/// Whether as much enters each inner vertex as leaves it.
fn is_balanced(net: &Net, flow: &[u64]) -> bool
    requires one_each { length flow.now ≡ edge_count net.now }
    ensures { IsTrue result ↔ IsBalanced net.now (slice_index flow.now) }
{
    for v in 0..net.vertices() {
        if !net.is_source(v) && !net.is_sink(v) && !is_balanced_at(net, flow, v) {
            return false;
        }
    }
    true
}

/// Whether the levels of all sources and sinks are 0.
fn is_zero_at_ends(net: &Net, levels: &[i64]) -> bool
    requires one_each { length levels.now ≡ net.now.vertices }
    ensures { IsTrue result ↔ IsZeroAtEnds net.now (level_at levels.now) }
{
    for v in 0..net.vertices() {
        if (net.is_source(v) || net.is_sink(v)) && levels[v as usize] != 0 {
            return false;
        }
    }
    true
}

/// How much the level rises along an edge.
pub fn rise(net: &Net, levels: &[i64], e: u32) -> i64
    requires edge { e < edge_count net.now }
    requires one_each { length levels.now ≡ net.now.vertices }
    requires small { All IsSmallLevel levels.now }
    ensures { result ≡ rise net.now (level_at levels.now) e }
{
    levels[net.head(e) as usize] - levels[net.tail(e) as usize]
}

/// Whether no edge falls by more than 1.
fn is_gentle(net: &Net, levels: &[i64]) -> bool
    requires one_each { length levels.now ≡ net.now.vertices }
    requires small { All IsSmallLevel levels.now }
    ensures { IsTrue result ↔ IsGentle net.now (level_at levels.now) }
{
    for e in 0..net.edges() {
        if rise(net, levels, e) < -1 {
            return false;
        }
    }
    true
}

/// The change of the flow.
pub fn change(net: &Net, weights: &[u64], flow: &[u64]) -> u128
    requires one_weight_each { length weights.now ≡ edge_count net.now }
    requires one_number_each { length flow.now ≡ edge_count net.now }
    ensures { result ≡ change net.now (slice_index weights.now) (slice_index flow.now) }
{
    let mut sum = 0u128;
    for e in 0..net.edges() {
        sum += u128::from(weights[e as usize].abs_diff(flow[e as usize]));
    }
    sum
}

/// The lesser of 1 and a rise of at least -1, times a weight.
fn share(up: i64, weight: u64) -> i64
    requires gentle { negsuc 0 ≤ℤ up }
    requires bounded { weight ≤ most_weight }
    ensures value { result ≡ share up weight }
    ensures low { pos 0 ≤ℤ (result +ℤ pos most_weight) }
    ensures high { result ≤ℤ pos most_weight }
{
    if up > 0 {
        return weight as i64;
    }
    if up < 0 {
        return -(weight as i64);
    }
    0
}

/// The bound of the levels.
fn bound(net: &Net, weights: &[u64], levels: &[i64]) -> i64
    requires one_weight_each { length weights.now ≡ edge_count net.now }
    requires bounded { All (λ weight. weight ≤ most_weight) weights.now }
    requires one_level_each { length levels.now ≡ net.now.vertices }
    requires small { All IsSmallLevel levels.now }
    requires gentle { IsGentle net.now (level_at levels.now) }
    ensures { result ≡ bound net.now (slice_index weights.now) (level_at levels.now) }
{
    let mut sum = 0i64;
    for e in 0..net.edges() {
        sum += share(rise(net, levels, e), weights[e as usize]);
    }
    sum
}

/// Whether the signed number is the other number.
fn is_number(signed: i64, number: u128) -> bool
    ensures { IsTrue result ↔ (signed ≡ pos number) }
{
    signed >= 0 && signed as u128 == number
}

/// Whether the flow and the levels meet all conditions of a certificate.
fn is_certificate(net: &Net, weights: &[u64], flow: &[u64], levels: &[i64], total: u128) -> bool
    requires one_each { length weights.now ≡ edge_count net.now }
    requires bounded { All (λ weight. weight ≤ most_weight) weights.now }
    ensures exact { IsTrue result ↔ ProvesNearest net.now weights.now flow.now levels.now total }
    ensures net { IsNet net.now }
{
    flow.len() == net.edges() as usize
        && levels.len() == net.vertices() as usize
        && are_small_numbers(flow)
        && are_small_levels(levels)
        && is_balanced(net, flow)
        && is_zero_at_ends(net, levels)
        && is_gentle(net, levels)
        && change(net, weights, flow) == total
        && is_number(bound(net, weights, levels), total)
}

/// Whether the levels prove that the flow is nearest to the weights, and changes them by this much.
///
/// The flow is one number below 2^63 for each edge, balanced at each inner vertex. The levels are one number from -2^32 to 2^32 for each vertex, 0 at each source and sink,
/// and no edge falls by more than 1. The change of the flow and the bound of the levels both are `total`.
pub fn check_nearest(net: &Net, weights: &[u64], flow: &[u64], levels: &[i64], total: u128) -> bool
    requires one_each { length weights.now ≡ edge_count net.now }
    requires bounded { All (λ weight. weight ≤ most_weight) weights.now }
    ensures exact { IsTrue result ↔ ProvesNearest net.now weights.now flow.now levels.now total }
    ensures nearest { IsTrue result → IsNearest net.now (slice_index weights.now) (slice_index flow.now) total }
{
    is_certificate(net, weights, flow, levels, total)
}
