//! Lists of weighted paths.

ghost use Rattle.std.specs.Prelude.{◌≡◌, ℕ, ◌<◌, ◌≤◌, ◌^◌, List, [], ◌∷◌, ◌++◌, length, All, IfOk, OnOk, OnErr};
ghost use Rattle.decomposition.specs.Answer.{weight_on, IsMerged, entry_at, total_weight, HaveSamePaths, IsInReportOrder};

use crate::ids::Ids;
use crate::tidying::{merge, put_in_order};
use std::alloc::{AllocError, Global};
use std::marker::Model;

/// A list of paths, each with a weight of at least 1.
#[derive(Debug, Drop)]
pub struct Answer {
    entries: Vec<(Ids, u64)>,
}

impl Model for Answer {
    ghost Value = { List (List ℕ × ℕ) };

    ghost view = { λ answer. answer.entries.items };

    ghost invariant = { λ answer. All (λ entry. 1 ≤ entry.1) answer.entries.items };
}

impl Answer {
    /// An empty list.
    pub fn new(alloc: Global) -> Self
        ensures { result ≡ [] }
    {
        Answer {
            entries: Vec::new(alloc),
        }
    }

    /// How many entries there are.
    pub fn len(&self) -> usize
        ensures len { result ≡ length self.now }
        ensures weights { All (λ entry. 1 ≤ entry.1) self.now }
    {
        self.entries.len()
    }

    /// The path of an entry.
    pub fn path(&self, i: usize) -> &Ids
        requires { i < length self.now }
        ensures { result.now ≡ (entry_at self.now i).0 }
    {
        &self.entries[i].0
    }

    /// The weight of an entry.
    pub fn weight(&self, i: usize) -> u64
        requires { i < length self.now }
        ensures value { result ≡ (entry_at self.now i).1 }
        ensures positive { 1 ≤ result }
    {
        self.entries[i].1
    }

    /// Adds an entry at the end.
    pub fn push(&mut self, path: Ids, weight: u64) -> Result<(), AllocError>
        requires { 1 ≤ weight }
        ensures ok { OnOk result (self.new ≡ self.old ++ (path, weight) ∷ []) }
        ensures err { OnErr result (self.new ≡ self.old) }
    {
        self.entries.push((path, weight))?;
        Ok(())
    }

    /// Each path of the answer once, with the sum of its weights, in report order.
    pub fn tidy(self, alloc: Global) -> Result<Answer, AllocError>
        requires { total_weight self < 2 ^ 64 }
        ensures merged { IfOk result (IsMerged self) }
        ensures paths { IfOk result (HaveSamePaths self) }
        ensures sums { IfOk result (λ tidied. (e : ℕ) → weight_on tidied e ≡ weight_on self e) }
        ensures order { IfOk result IsInReportOrder }
    {
        let mut entries = merge(alloc, self.entries)?;
        put_in_order(&mut entries)?;
        Ok(Answer { entries })
    }
}
