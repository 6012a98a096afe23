//! The list of boxes of a decision, to which tokens are applied.

ghost use Rattle.std.specs.Prelude.{◌≡◌, ◌≢◌, ◌<◌, ◌≤◌, [], false, nat_lt, length, None, IfOk, IfSome, IsTrue};
ghost use Rattle.std.specs.List.{list_all};
ghost use Rattle.decomposition.specs.declared.Token.TheVariants.{Split, Step};
ghost use Rattle.decomposition.specs.Graph.{edge_count, is_run, paths};
ghost use Rattle.decomposition.specs.Instance.{greatest_hi};
ghost use Rattle.decomposition.specs.Boxes.{gap, misses, low_on, high_on, lower_at, upper_at};
ghost use Rattle.flow_models.specs.Problem.{instance};
ghost use Rattle.refute_tree.specs.Front.{root_of, first_of, is_unfinished, may_branch, may_take, closing, Applies, AreLeft, IsFirstOpen, IsOpenAnswer, IsClosedOrNone, SettlesFront};

use crate::answer::first_paths;
use crate::beside::Beside;
use crate::closing::{closing_token, is_above, is_missed};
use crate::ends::Known;
use crate::next::is_finished;
use crate::one_box::OneBox;
use crate::replacing::replace_first;
use crate::sums::Weights;
use dag_net::{Answer, Net};
use decomposition::{Decision, Token};
use flow_models::Problem;
use std::alloc::{AllocError, Global};
use std::marker::Model;

/// What the slots of the first box put on an edge.
#[derive(Clone, Copy, Debug)]
pub struct Sums {
    /// The least weight: that of the slots whose walk has the edge.
    pub low: u128,
    /// The greatest weight: that of the slots whose walk may have the edge.
    pub high: u128,
}

/// The list of boxes of a decision that no token has closed yet. Tokens are applied to the first of them.
#[derive(Debug, Drop)]
pub struct Front<'a> {
    net: &'a Net,
    problem: &'a Problem,
    decision: Decision,
    room: u32,
    used: u32,
    has_first: bool,
    one: OneBox,
    beside: Beside<'a>,
    closing: Option<Token>,
}

impl<'a> Model for Front<'a> {
    ghost use Rattle.refute_tree.specs.Front.{Boxes};

    ghost Value = { Boxes };

    ghost use Rattle.refute_tree.specs.Kept.{shown, IsKept};

    ghost view = { shown };

    ghost invariant = { IsKept };
}

impl<'a> Front<'a> {
    /// The root box alone, and room for so many tokens.
    pub fn root(
        alloc: Global,
        net: &'a Net,
        p: &'a Problem,
        d: &Decision,
        tokens: u32,
    ) -> Result<Front<'a>, AllocError>
        requires ranged { length p.now.ranges ≡ edge_count net.now }
        requires rules { IsTrue (list_all (is_run net.now) p.now.rules) }
        requires cap { p.now.cap ≡ greatest_hi p.now.ranges }
        ensures { IfOk result (λ front. front ≡ root_of (instance net.now p.now) d.now tokens) }
    {
        let one = OneBox::of_root(alloc, net, d.slots, p.cap, tokens)?;
        let mut sums = Weights::with_room(alloc, d.slots, net.edges())?;
        sums.mend(net, p, &one.links, &one.ranges);
        let known = Known::nothing(alloc, &p.rules)?;
        let beside = Beside { sums, known };
        let closing = closing_token(net, p, d.limit, &one, &beside);
        Ok(Front {
            net,
            problem: p,
            decision: *d,
            room: tokens,
            used: 0,
            has_first: true,
            one,
            beside,
            closing,
        })
    }

    /// The number of boxes.
    pub fn left(&self) -> usize
        ensures { result ≡ length self.now.boxes }
    {
        if self.has_first {
            self.one.count(self.net)
        } else {
            0
        }
    }

    /// The number of tokens applied.
    pub fn used(&self) -> u32
        ensures used { result ≡ self.now.used }
        ensures room { result ≤ self.now.room }
        ensures left { AreLeft self.now }
    {
        self.used
    }

    /// The gap of the first box: over all edges, how far its weights must lie outside the range.
    pub fn gap(&self) -> u128
        requires some { self.now.boxes ≢ [] }
        ensures { result ≡ gap self.now.instance (first_of self.now.boxes) }
    {
        self.beside.sums.gap
    }

    /// The least and the greatest weight that the slots of the first box put on an edge.
    pub fn sums(&self, edge: u32) -> Sums
        requires some { self.now.boxes ≢ [] }
        requires edge { edge < edge_count self.now.instance.graph }
        ensures low { result.low ≡ low_on (first_of self.now.boxes) edge }
        ensures high { result.high ≡ high_on (paths self.now.instance.graph) (first_of self.now.boxes) edge }
    {
        Sums {
            low: self.beside.sums.low_on(edge),
            high: self.beside.sums.high_on(edge),
        }
    }

    /// Whether no slot of the first box of a weight that may be positive may contain the rule.
    pub fn missed(&self, rule: u32) -> bool
        requires some { self.now.boxes ≢ [] }
        requires rule { rule < length self.now.instance.rules }
        ensures { result ≡ misses self.now.instance (first_of self.now.boxes) rule }
    {
        is_missed(self.net, self.problem, &self.one, &self.beside, rule)
    }

    /// The token that closes the first box: the gap where it is legal, else the first legal miss.
    pub fn closes(&self) -> Option<Token>
        ensures { result ≡ closing self.now }
    {
        self.closing
    }

    /// Whether the slot of the first box may be split.
    pub fn can_split(&self, slot: u32) -> bool
        ensures { result ≡ may_take self.now (Split slot) }
    {
        self.can_branch(slot) && self.is_apart(slot)
    }

    /// Whether the walk of the slot of the first box may go on.
    pub fn can_step(&self, slot: u32) -> bool
        ensures { result ≡ may_take self.now (Step slot) }
    {
        self.can_branch(slot) && self.is_unfinished(slot)
    }

    /// The answer of the first box, where there is one at which no token may be taken. It answers the decision: paths of the net,
    /// at most as many as there are slots and none heavier than the cap, that cover every rule with an error within the limit.
    pub fn answer(&self, alloc: Global) -> Result<Option<Answer>, AllocError>
        ensures none { IfOk result (λ a. a ≡ None → IsClosedOrNone self.now) }
        ensures found { IfOk result (λ a. IfSome a (IsOpenAnswer self.now)) }
        ensures settles { IfOk result (λ a. IfSome a (SettlesFront self.now)) }
    {
        if !self.is_open() {
            return Ok(None);
        }
        if self.net.edges() == 0 {
            return Ok(Some(Answer::new(alloc)));
        }
        let answer = first_paths(alloc, &self.one, &self.beside.sums)?;
        Ok(Some(answer))
    }

    /// Applies a token: true where it is legal, and then the boxes are those after it; false where it is not, and then nothing has changed.
    pub fn apply(&mut self, token: Token) -> bool
        requires room { self.old.used < self.old.room }
        ensures { Applies self.old token self.new result }
    {
        if !self.may_take(token) {
            return false;
        }
        self.used += 1;
        self.has_first = replace_first(self.net, &mut self.beside, &mut self.one, token);
        if !self.has_first {
            self.closing = None;
            return true;
        }
        self.beside
            .sums
            .mend(self.net, self.problem, &self.one.links, &self.one.ranges);
        self.closing = closing_token(
            self.net,
            self.problem,
            self.decision.limit,
            &self.one,
            &self.beside,
        );
        true
    }

    /// Whether the bounds of the slot of the first box differ.
    fn is_apart(&self, slot: u32) -> bool
        requires some { self.now.boxes ≢ [] }
        requires slot { slot < length (first_of self.now.boxes) }
        ensures { result ≡ nat_lt (lower_at (first_of self.now.boxes) slot) (upper_at (first_of self.now.boxes) slot) }
    {
        self.beside.sums.lowers[slot as usize] < self.beside.sums.uppers[slot as usize]
    }

    /// Whether the slot of the first box may have weight, and its walk has not reached a sink.
    fn is_unfinished(&self, slot: u32) -> bool
        requires some { self.now.boxes ≢ [] }
        requires slot { slot < length (first_of self.now.boxes) }
        ensures { result ≡ is_unfinished self.now.instance.graph (first_of self.now.boxes) slot }
    {
        self.beside.sums.uppers[slot as usize] >= 1 && !is_finished(self.net, &self.one.links, slot)
    }

    /// Whether there is a first box, and no token may be taken at it.
    fn is_open(&self) -> bool
        ensures open { IsTrue result → IsFirstOpen self.now }
        ensures closed { result ≡ false → IsClosedOrNone self.now }
    {
        if !self.has_first || self.closing.is_some() {
            return false;
        }
        if self.net.edges() == 0 {
            return true;
        }
        for slot in 0..self.one.slots() {
            if self.is_apart(slot) || self.is_unfinished(slot) {
                return false;
            }
        }
        true
    }

    /// Whether there is a first box with that slot, the net has an edge, and no token closes the box.
    fn can_branch(&self, slot: u32) -> bool
        ensures { result ≡ may_branch self.now slot }
    {
        if !self.has_first || self.net.edges() == 0 {
            return false;
        }
        (slot as usize) < self.one.ranges.len() && self.closing.is_none()
    }

    /// Whether the token may be taken at the first box.
    fn may_take(&self, token: Token) -> bool
        ensures { result ≡ may_take self.now token }
    {
        match token {
            Token::Gap => self.has_first && is_above(self.decision.limit, self.gap()),
            Token::Miss(rule) => self.has_first
                && rule < self.problem.rules.len()
                && self.missed(rule),
            Token::Split(slot) => self.can_split(slot),
            Token::Step(slot) => self.can_step(slot),
        }
    }
}
