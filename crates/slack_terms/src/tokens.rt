//! Lists of tokens.

ghost use Rattle.std.specs.Prelude.{◌≡◌, ◌<◌, [], ◌∷◌, ◌++◌, length, slice_index_or, OnOk, OnErr};
ghost use Rattle.slack_terms.specs.declared.token.SlackToken.TheVariants.{Over};

use crate::token::SlackToken;
use std::alloc::{AllocError, Global};
use std::marker::Model;

/// A list of tokens.
#[derive(Debug, Drop)]
pub struct SlackTokens {
    items: Vec<SlackToken>,
}

impl Model for SlackTokens {
    ghost use Rattle.std.specs.Prelude.{List};
    ghost use Rattle.slack_terms.specs.declared.token.SlackToken.{SlackToken};

    ghost Value = { List SlackToken };

    ghost view = { λ tokens. tokens.items.items };
}

impl SlackTokens {
    /// An empty list.
    pub fn new(alloc: Global) -> Self
        ensures { result ≡ [] }
    {
        SlackTokens {
            items: Vec::new(alloc),
        }
    }

    /// How many entries there are.
    pub fn len(&self) -> usize
        ensures { result ≡ length self.now }
    {
        self.items.len()
    }

    /// The entry at a place.
    pub fn get(&self, i: usize) -> SlackToken
        requires { i < length self.now }
        ensures { result ≡ slice_index_or self.now i Over }
    {
        self.items[i]
    }

    /// The entries as a slice.
    pub fn as_slice(&self) -> &[SlackToken]
        ensures { result.now ≡ self.now }
    {
        self.items.as_slice()
    }

    /// Adds an entry at the end.
    pub fn push(&mut self, item: SlackToken) -> Result<(), AllocError>
        ensures ok { OnOk result (self.new ≡ self.old ++ item ∷ []) }
        ensures err { OnErr result (self.new ≡ self.old) }
    {
        self.items.push(item)?;
        Ok(())
    }
}
