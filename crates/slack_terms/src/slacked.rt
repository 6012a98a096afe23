//! Lists of paths with weights and slacks.

ghost use Rattle.std.specs.Prelude.{◌≡◌, ◌<◌, [], ◌∷◌, ◌++◌, length, OnOk, OnErr};
ghost use Rattle.slack_terms.specs.Answers.{entry_at};

use crate::slack_path::SlackPath;
use std::alloc::{AllocError, Global};
use std::marker::Model;

/// A list of paths, each with a weight and a slack.
#[derive(Debug, Drop)]
pub struct Slacked {
    items: Vec<SlackPath>,
}

impl Model for Slacked {
    ghost use Rattle.std.specs.Prelude.{List};
    ghost use Rattle.slack_terms.specs.declared.slack_path.SlackPath.{SlackPath};

    ghost Value = { List SlackPath };

    ghost view = { λ slacked. slacked.items.items };
}

impl Slacked {
    /// An empty list.
    pub fn new(alloc: Global) -> Self
        ensures { result ≡ [] }
    {
        Slacked {
            items: Vec::new(alloc),
        }
    }

    /// How many entries there are.
    pub fn len(&self) -> usize
        ensures { result ≡ length self.now }
    {
        self.items.len()
    }

    /// The entry at a place.
    pub fn get(&self, i: usize) -> &SlackPath
        requires { i < length self.now }
        ensures { result.now ≡ entry_at self.now i }
    {
        &self.items[i]
    }

    /// Adds an entry at the end.
    pub fn push(&mut self, item: SlackPath) -> Result<(), AllocError>
        ensures ok { OnOk result (self.new ≡ self.old ++ item ∷ []) }
        ensures err { OnErr result (self.new ≡ self.old) }
    {
        self.items.push(item)?;
        Ok(())
    }
}
