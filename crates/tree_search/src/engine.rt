//! The engine: it branches boxes by tokens of its choice until none is left, and lifts as it goes: where the tokens that refuted a
//! child refute its parent too, the choice and the other children are taken out of the tree.
//!
//! It gives a refutation, an answer, or up. All work is counted in edges touched, and taken off one purse.

use crate::boxes::OpenBox;
use crate::choosing::{Profile, choose};
use crate::frames::{Frame, branch, next_child};
use crate::ground::Ground;
use crate::tape::Tape;
use dag_net::Answer;
use decomposition::Token;
use flow_models::Problem;
use search_rooms::{Pile, Purse};
use std::alloc::{AllocError, Global};

/// At most so many choices are open at a time.
const DEPTH: usize = 16_384;

/// How a search ends.
#[derive(Clone, Copy)]
pub enum Ending {
    /// No box is left: the tokens are a refutation.
    Refuted,
    /// No token can be taken at the open box: it gives an answer.
    Found,
    /// The work or a room was used up.
    Spent,
}

/// A search for a decision: whether so many paths suffice for an error within the limit.
#[derive(Drop)]
pub struct Engine<'a> {
    open: OpenBox<'a>,
    tokens: Tape,
    frames: Pile<Frame>,
    /// The open choices of a replay.
    replayed: Pile<Frame>,
}

impl<'a> Engine<'a> {
    /// A search that has taken no token, with room for so many.
    pub fn prepare(
        alloc: Global,
        ground: &'a Ground<'a>,
        problem: &'a Problem,
        slots: u32,
        limit: Option<u64>,
        tokens: u32,
    ) -> Result<Engine<'a>, AllocError> {
        Ok(Engine {
            open: OpenBox::root(alloc, ground, problem, slots, limit)?,
            tokens: Tape::with_room(alloc, tokens as usize)?,
            frames: Pile::with_room(alloc, DEPTH)?,
            replayed: Pile::with_room(alloc, DEPTH)?,
        })
    }

    /// The tokens so far: after `Refuted` a refutation.
    pub fn tokens(&self) -> &[Token] {
        self.tokens.as_slice()
    }

    /// After `Found` the answer: the walks of the open box with their greatest weights.
    pub fn answer(&self, alloc: Global) -> Result<Answer, AllocError> {
        self.open.answer(alloc)
    }

    /// Searches from the root box until the decision is refuted or answered, or the room or the purse is used up.
    pub fn run(&mut self, profile: Profile, purse: &mut Purse) -> Ending {
        self.begin();
        for _ in 0..purse.left() {
            purse.spend(u64::from(self.open.slots()).saturating_add(1));
            self.pay(purse);
            if self.is_full() || purse.is_spent() {
                return Ending::Spent;
            }
            if let Some(ending) = self.advance(profile, purse) {
                return ending;
            }
        }
        Ending::Spent
    }

    /// Comes back to the root box, with no token taken.
    fn begin(&mut self) {
        self.open.back_to(0);
        let _ = self.open.take_work();
        self.tokens.clear();
        self.frames.clear();
    }

    /// Takes the edges that were touched off the purse.
    fn pay(&mut self, purse: &mut Purse) {
        let work = self.open.take_work();
        purse.spend(work);
    }

    /// Whether a further token may find no room.
    fn is_full(&self) -> bool {
        self.tokens.is_full() || self.frames.len() >= DEPTH || self.open.is_full()
    }

    /// Takes one token at the open box, or tells how the search ends.
    fn advance(&mut self, profile: Profile, purse: &mut Purse) -> Option<Ending> {
        if let Some(token) = self.open.closing() {
            self.tokens.push(token);
            return if self.go_on(purse) {
                None
            } else {
                Some(Ending::Refuted)
            };
        }
        let Some(token) = choose(&mut self.open, profile) else {
            return Some(Ending::Found);
        };
        let place = self.tokens.len();
        self.tokens.push(token);
        if let Some(frame) = branch(&mut self.open, token, place) {
            self.frames.push(frame);
        }
        None
    }

    /// The open box is refuted by the tokens of the last child. Lifts, or goes to the next child; false where no box is left.
    fn go_on(&mut self, purse: &mut Purse) -> bool {
        for _ in 0..=DEPTH {
            let Some(frame) = self.frames.pop() else {
                return false;
            };
            self.open.back_to(frame.mark);
            if self.is_lifted(frame.begin, purse) {
                self.tokens.take_out(frame.place, frame.begin);
            } else if let Some(next) = next_child(&mut self.open, frame) {
                let begin = self.tokens.len();
                self.frames.push(Frame { begin, ..next });
                return true;
            }
        }
        true
    }

    /// Whether the tokens from a place on are several, and refute the open box itself.
    fn is_lifted(&mut self, begin: usize, purse: &mut Purse) -> bool {
        if self.tokens.len().saturating_sub(begin) <= 1 {
            return false;
        }
        let mark = self.open.mark();
        self.replayed.clear();
        let refuted = self.replay(begin);
        self.open.back_to(mark);
        self.pay(purse);
        refuted
    }

    /// Applies the tokens from a place on; true where the last of them leaves no box.
    fn replay(&mut self, begin: usize) -> bool {
        let count = self.tokens.len();
        for k in begin..count {
            let Some(token) = self.tokens.get(k) else {
                return false;
            };
            self.open.touch(1);
            if !self.is_legal(token) || self.replayed.len() >= DEPTH || self.open.is_full() {
                return false;
            }
            if let Some(frame) = branch(&mut self.open, token, 0) {
                self.replayed.push(frame);
            } else if !self.next_replayed() {
                return k.saturating_add(1) == count;
            }
        }
        false
    }

    /// Goes to the next box of a replay; false where none is left.
    fn next_replayed(&mut self) -> bool {
        for _ in 0..=DEPTH {
            let Some(frame) = self.replayed.pop() else {
                return false;
            };
            self.open.back_to(frame.mark);
            if let Some(next) = next_child(&mut self.open, frame) {
                self.replayed.push(next);
                return true;
            }
        }
        true
    }

    /// Whether a token may be taken at the open box.
    fn is_legal(&self, token: Token) -> bool {
        match token {
            Token::Gap => self.open.has_gap(),
            Token::Miss(rule) => self.open.is_missed(rule),
            Token::Split(slot) => self.open.can_split(slot) && self.can_branch(),
            Token::Step(slot) => self.open.can_step(slot) && self.can_branch(),
        }
    }

    /// Whether no token but a join closes the open box.
    fn can_branch(&self) -> bool {
        !self.open.has_gap() && self.open.first_missed().is_none()
    }
}
