//! What the first box puts on slots and edges: the bounds of each slot, the least and the greatest weight on each edge, and the gap.

ghost use Rattle.std.specs.Prelude.{◌≡◌, ◌<◌, ◌≤◌, ◌^◌, ◌++◌, [], ◌∷◌, ℕ, List, length, set, slice_index, vec_len, eqb, IfOk, IsTrue};
ghost use Rattle.std.specs.List.{IsDistinct};
ghost use Rattle.decomposition.specs.Graph.{Graph, IsNet, edge_count, tail, has_edge, paths};
ghost use Rattle.decomposition.specs.Answer.{sum_below};
ghost use Rattle.decomposition.specs.Boxes.{may_have};
ghost use Rattle.decomposition.specs.Reach.{reaches, IsBegun};
ghost use Rattle.flow_models.specs.Problem.{instance};
ghost use Rattle.link_cells.specs.Links.{LinkList, walk_of};
ghost use Rattle.refute_tree.specs.OneBox.{box_of, IsBoxBegun};
ghost use Rattle.refute_tree.specs.Sums.{AreUppers, AreLowers, ChangesWhere, AreWithin, AreAbove, AreSmall, AreTotals, ChangesWalk, SumsUp, high_at, outside};

use dag_net::{Net, Ranges};
use decomposition::Range;
use flow_models::Problem;
use link_cells::Incidence;
use std::alloc::{AllocError, Global};

/// Takes a weight off each edge that a vertex reaches, and adds another there.
fn change_ahead(weights: &mut [u128], net: &Net, from: u32, less: u64, more: u64)
    requires room { length weights.old ≡ edge_count net.now }
    requires vertex { from < net.now.vertices }
    requires small { AreWithin (2 ^ 96) weights.old }
    requires there { AreAbove (λ e. reaches net.now from (tail net.now e)) less weights.old }
    ensures { ChangesWhere (λ e. reaches net.now from (tail net.now e)) less more weights.old weights.new }
{
    for e in 0..net.edges() {
        if net.reaches(from, net.tail(e)) {
            let rest = weights[e as usize] - u128::from(less);
            weights[e as usize] = rest + u128::from(more);
        }
    }
}

/// Takes a weight off each edge of the walk of a slot, and adds another there.
fn change_along(weights: &mut [u128], links: &Incidence, slot: u32, less: u64, more: u64)
    requires slot { slot < links.now.slots }
    requires once { IsDistinct eqb (walk_of links.now.links slot) }
    requires inside { (e : ℕ) → IsTrue (has_edge (walk_of links.now.links slot) e) → e < length weights.old }
    requires small { AreWithin (2 ^ 97) weights.old }
    requires there { AreAbove (has_edge (walk_of links.now.links slot)) less weights.old }
    ensures { ChangesWhere (has_edge (walk_of links.now.links slot)) less more weights.old weights.new }
{
    let mut at = links.last_cell(slot);
    while let Some(cell) = at {
        let e = links.edge_of(cell) as usize;
        let rest = weights[e] - u128::from(less);
        weights[e] = rest + u128::from(more);
        at = links.cell_before(cell);
    }
}

/// Takes a weight off each edge that the walk of a slot has or that its last edge leads to, and adds another there.
fn change_high(
    high: &mut [u128],
    net: &Net,
    links: &Incidence,
    slot: u32,
    last: u32,
    less: u64,
    more: u64,
)
    requires net { IsNet net.now }
    requires room { length high.old ≡ edge_count net.now }
    requires slot { slot < links.now.slots }
    requires last { (before : List ℕ) × (walk_of links.now.links slot ≡ before ++ last ∷ []) }
    requires begun { IsBegun net.now (walk_of links.now.links slot) }
    requires small { AreWithin (2 ^ 96) high.old }
    requires there { AreAbove (may_have (paths net.now) (walk_of links.now.links slot)) less high.old }
    ensures { ChangesWhere (may_have (paths net.now) (walk_of links.now.links slot)) less more high.old high.new }
{
    change_ahead(high, net, net.head(last), less, more);
    change_along(high, links, slot, less, more);
}

/// The bounds of each slot's weight, the least and the greatest weight on each edge, which are sums of these bounds, and the gap.
/// What slots with an empty walk may put on every edge is kept once.
#[derive(Debug, Drop)]
pub struct Weights {
    pub uppers: Vec<u64>,
    pub lowers: Vec<u64>,
    low: Vec<u128>,
    high: Vec<u128>,
    everywhere: u128,
    pub gap: u128,
}

impl Weights {
    /// The sums of so many slots on so many edges with no bounds: all 0, whatever the walks are.
    pub fn with_room(alloc: Global, slots: u32, edges: u32) -> Result<Weights, AllocError>
        ensures { IfOk result (λ sums. (g : Graph) (l : LinkList) → edge_count g ≡ edges → l.slots ≡ slots → AreTotals g l sums) }
    {
        Ok(Weights {
            uppers: vec![in alloc; 0; slots as usize]?,
            lowers: vec![in alloc; 0; slots as usize]?,
            low: vec![in alloc; 0; edges as usize]?,
            high: vec![in alloc; 0; edges as usize]?,
            everywhere: 0,
            gap: 0,
        })
    }

    /// The least weight kept for an edge.
    pub fn low_on(&self, edge: u32) -> u128
        requires edge { edge < vec_len self.now.low }
        ensures { result ≡ slice_index self.now.low.items edge }
    {
        self.low[edge as usize]
    }

    /// The greatest weight kept for an edge.
    pub fn high_on(&self, edge: u32) -> u128
        requires edge { edge < vec_len self.now.high }
        requires small { AreSmall (2 ^ 96) self.now }
        ensures { result ≡ high_at self.now edge }
    {
        self.high[edge as usize] + self.everywhere
    }

    /// Takes the bounds of a slot off the sums, so that its walk may be changed.
    pub fn clear(&mut self, net: &Net, links: &Incidence, slot: u32)
        requires net { IsNet net.now }
        requires totals { AreTotals net.now links.now self.old }
        requires slot { slot < links.now.slots }
        requires begun { IsBegun net.now (walk_of links.now.links slot) }
        ensures { (l : LinkList) → ChangesWalk slot links.now l → AreTotals net.now l self.new }
    {
        self.set_upper(net, links, slot, 0);
        self.set_lower(net, links, slot, 0);
    }

    /// Takes the sums of a box: sets the bounds that differ, and adds up the gap.
    pub fn mend(&mut self, net: &Net, problem: &Problem, links: &Incidence, ranges: &[Range])
        requires totals { AreTotals net.now links.now self.old }
        requires slots { links.now.slots ≡ length ranges.now }
        requires ranged { length problem.now.ranges ≡ edge_count net.now }
        requires begun { IsBoxBegun net.now (box_of ranges.now links.now.links) }
        ensures totals { AreTotals net.now links.now self.new }
        ensures sums { SumsUp (instance net.now problem.now) (box_of ranges.now links.now.links) self.new }
    {
        let edges = net.edges();
        self.mend_uppers(net, links, ranges);
        self.mend_lowers(net, links, ranges);
        self.gap = self.total_gap(edges, &problem.ranges);
    }

    /// Sets the upper bounds: the least hi of the slots up to each.
    fn mend_uppers(&mut self, net: &Net, links: &Incidence, ranges: &[Range])
        requires net { IsNet net.now }
        requires totals { AreTotals net.now links.now self.old }
        requires slots { links.now.slots ≡ length ranges.now }
        requires begun { IsBoxBegun net.now (box_of ranges.now links.now.links) }
        ensures totals { AreTotals net.now links.now self.new }
        ensures uppers { AreUppers (box_of ranges.now links.now.links) self.new.uppers.items }
    {
        let mut least = u64::MAX;
        for k in 0..ranges.len() {
            least = least.min(ranges[k].hi);
            self.set_upper(net, links, k as u32, least);
        }
    }

    /// Sets the lower bounds: the greatest lo of the slots from each on.
    fn mend_lowers(&mut self, net: &Net, links: &Incidence, ranges: &[Range])
        requires net { IsNet net.now }
        requires totals { AreTotals net.now links.now self.old }
        requires slots { links.now.slots ≡ length ranges.now }
        requires begun { IsBoxBegun net.now (box_of ranges.now links.now.links) }
        ensures totals { AreTotals net.now links.now self.new }
        ensures lowers { AreLowers (box_of ranges.now links.now.links) self.new.lowers.items }
        ensures uppers { self.new.uppers ≡ self.old.uppers }
    {
        let mut greatest = 0u64;
        for k in (0..ranges.len()).rev() {
            greatest = greatest.max(ranges[k].lo);
            self.set_lower(net, links, k as u32, greatest);
        }
    }

    /// Sets the upper bound of a slot, and the greatest weights with it.
    fn set_upper(&mut self, net: &Net, links: &Incidence, slot: u32, upper: u64)
        requires net { IsNet net.now }
        requires totals { AreTotals net.now links.now self.old }
        requires slot { slot < links.now.slots }
        requires begun { IsBegun net.now (walk_of links.now.links slot) }
        ensures totals { AreTotals net.now links.now self.new }
        ensures uppers { self.new.uppers.items ≡ set self.old.uppers.items slot upper }
        ensures lowers { self.new.lowers ≡ self.old.lowers }
    {
        let was = self.uppers[slot as usize];
        if was == upper {
            return;
        }
        self.uppers[slot as usize] = upper;
        match links.last_of(slot) {
            Some(last) => change_high(&mut self.high, net, links, slot, last, was, upper),
            None => {
                let rest = self.everywhere - u128::from(was);
                self.everywhere = rest + u128::from(upper);
            }
        }
    }

    /// Sets the lower bound of a slot, and the least weights with it.
    fn set_lower(&mut self, net: &Net, links: &Incidence, slot: u32, lower: u64)
        requires net { IsNet net.now }
        requires totals { AreTotals net.now links.now self.old }
        requires slot { slot < links.now.slots }
        requires begun { IsBegun net.now (walk_of links.now.links slot) }
        ensures totals { AreTotals net.now links.now self.new }
        ensures lowers { self.new.lowers.items ≡ set self.old.lowers.items slot lower }
        ensures uppers { self.new.uppers ≡ self.old.uppers }
    {
        let was = self.lowers[slot as usize];
        if was == lower {
            return;
        }
        self.lowers[slot as usize] = lower;
        change_along(&mut self.low, links, slot, was, lower);
    }

    /// The sum over all edges of how far the least weight lies above the range, or the greatest one below.
    fn total_gap(&self, edges: u32, ranges: &Ranges) -> u128
        requires few { edges ≤ 4096 }
        requires ranged { length ranges.now ≡ edges }
        requires room { (vec_len self.now.low ≡ edges) × (vec_len self.now.high ≡ edges) }
        requires small { AreSmall (2 ^ 96) self.now }
        ensures { result ≡ sum_below (outside self.now ranges.now) edges }
    {
        let mut gap = 0u128;
        for e in 0..edges as usize {
            let range = ranges.get(e);
            let above = self.low[e].saturating_sub(u128::from(range.hi));
            let below = u128::from(range.lo).saturating_sub(self.high[e] + self.everywhere);
            gap += above.max(below);
        }
        gap
    }
}
