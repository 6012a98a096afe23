//! The tokens of a tree, in a room of a fixed size.

use decomposition::Token;
use std::alloc::{AllocError, Global};

/// A list of tokens. What is added where no room is left is dropped.
#[derive(Drop)]
pub struct Tape {
    items: Vec<Token>,
    room: usize,
}

impl Tape {
    /// Room for so many tokens, none there.
    pub fn with_room(alloc: Global, room: usize) -> Result<Tape, AllocError> {
        let items = Vec::with_capacity(alloc, room)?;
        Ok(Tape { items, room })
    }

    /// How many tokens there are.
    pub fn len(&self) -> usize {
        self.items.len()
    }

    /// Whether no room is left.
    pub fn is_full(&self) -> bool {
        self.items.len() >= self.room
    }

    /// A token, where there is one.
    pub fn get(&self, i: usize) -> Option<Token> {
        self.items.get(i).copied()
    }

    /// The tokens as a slice.
    pub fn as_slice(&self) -> &[Token] {
        self.items.as_slice()
    }

    /// Adds a token at the end, where there is room.
    pub fn push(&mut self, token: Token) {
        if !self.is_full() {
            let _ = self.items.push(token);
        }
    }

    /// Takes all tokens off.
    pub fn clear(&mut self) {
        self.items.clear();
    }

    /// Takes out the tokens from one place to before another.
    pub fn take_out(&mut self, from: usize, to: usize) {
        let mut place = from;
        for k in to..self.items.len() {
            if let Some(token) = self.get(k) {
                if place < self.items.len() {
                    self.items[place] = token;
                }
            }
            place = place.saturating_add(1);
        }
        self.items.truncate(place);
    }
}
