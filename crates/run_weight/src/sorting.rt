//! The entries of an answer by what their paths do at a run. Paths on the run change ends with paths that leave it,
//! until none of either kind is left.

ghost use Rattle.std.specs.Prelude.{◌≡◌, ℕ, ◌+◌, ◌*◌, ◌<◌, ◌≤◌, ◌++◌, [], List, cond, length, vec_len, All, IfOk, OnOk};
ghost use Rattle.decomposition.specs.Graph.{IsNet, IsRun, has_edge};
ghost use Rattle.decomposition.specs.Answer.{IsAnswer, weight_on};
ghost use Rattle.run_weight.specs.Exits.{ArePlacesAlong, IsExit};
ghost use Rattle.run_weight.specs.Sorting.{IsCarrier, IsOther, IsSorted, HasWeights, Adds, weight_sorted, turns_left};

use crate::exits::{Exit, copy_of, first_exit, joined, place_of};
use dag_net::{Answer, Ids, Net};
use std::alloc::{AllocError, Global};
use subpath_rules::stands_in;

/// Entries whose path contains the run, entries that are to be looked at, and entries that are done with.
#[derive(Drop)]
pub struct Sorting {
    pub carriers: Vec<(Ids, u64)>,
    pub pending: Vec<(Ids, u64)>,
    pub settled: Vec<(Ids, u64)>,
}

/// Adds an entry, unless it weighs nothing.
fn add_entry(entries: &mut Vec<(Ids, u64)>, path: Ids, weight: u64) -> Result<(), AllocError>
    ensures { OnOk result (Adds entries.old.items path weight entries.new.items) }
{
    if weight > 0 {
        entries.push((path, weight))?;
    }
    Ok(())
}

/// Adds entries at the end of an answer.
fn push_all(answer: &mut Answer, entries: Vec<(Ids, u64)>) -> Result<(), AllocError>
    requires { All (λ entry. 1 ≤ entry.1) entries.items }
    ensures { OnOk result (answer.new ≡ answer.old ++ entries.items) }
{
    for (path, weight) in entries {
        answer.push(path, weight)?;
    }
    Ok(())
}

impl Sorting {
    /// The entries of an answer, those with the run apart from the others.
    pub fn of(alloc: Global, net: &Net, answer: &Answer, run: &[u32]) -> Result<Self, AllocError>
        requires answer { IsAnswer net.now answer.now }
        ensures sorted { IfOk result (λ sorting. (places : List ℕ) → IsSorted net.now run.now places sorting) }
        ensures weights { IfOk result (HasWeights answer.now) }
    {
        let mut sorting = Sorting {
            carriers: Vec::new(alloc),
            pending: Vec::new(alloc),
            settled: Vec::new(alloc),
        };
        for i in 0..answer.len() {
            let path = answer.path(i).as_slice();
            let entry = (copy_of(alloc, path)?, answer.weight(i));
            if stands_in(run, path) {
                sorting.carriers.push(entry)?;
            } else {
                sorting.pending.push(entry)?;
            }
        }
        Ok(sorting)
    }

    /// Exchanges the end of a path that leaves the run with that of a path on it, by as many units as both have.
    fn exchange(
        &mut self,
        alloc: Global,
        net: &Net,
        run: &[u32],
        path: Ids,
        weight: u64,
        carrier: Ids,
        carried: u64,
        exit: Exit,
    ) -> Result<(), AllocError>
        requires net { IsNet net.now }
        requires run { IsRun net.now run.now }
        requires entry { IsOther net.now run.now (path, weight) }
        requires carrier { IsCarrier net.now run.now (carrier, carried) }
        requires exit { IsExit net.now run.now path exit.at exit.along }
        requires carriers { All (IsCarrier net.now run.now) self.old.carriers.items }
        requires pending { All (IsOther net.now run.now) self.old.pending.items }
        ensures carriers { OnOk result (All (IsCarrier net.now run.now) self.new.carriers.items) }
        ensures pending { OnOk result (All (IsOther net.now run.now) self.new.pending.items) }
        ensures settled { OnOk result (self.new.settled.items ≡ self.old.settled.items) }
        ensures weights { OnOk result ((e : ℕ) → weight_sorted self.new e ≡ weight_sorted self.old e + (cond (has_edge carrier e) carried 0 + cond (has_edge path e) weight 0)) }
        ensures less { OnOk result (turns_left self.new ≤ turns_left self.old + 3 * carried) }
    {
        let units = weight.min(carried);
        let Some(at) = place_of(carrier.as_slice(), run[exit.along]) else {
            unreachable!()
        };
        let leaving = joined(alloc, carrier.as_slice(), at, path.as_slice(), exit.at)?;
        let coming = joined(alloc, path.as_slice(), exit.at, carrier.as_slice(), at)?;
        self.pending.push((leaving, units))?;
        self.pending.push((coming, units))?;
        add_entry(&mut self.pending, path, weight - units)?;
        add_entry(&mut self.carriers, carrier, carried - units)?;
        Ok(())
    }

    /// Settles a path, or exchanges its end with that of a path on the run.
    fn settle_entry(
        &mut self,
        alloc: Global,
        net: &Net,
        run: &[u32],
        places: &[usize],
        path: Ids,
        weight: u64,
    ) -> Result<(), AllocError>
        requires net { IsNet net.now }
        requires run { IsRun net.now run.now }
        requires places { ArePlacesAlong net.now run.now places.now }
        requires entry { IsOther net.now run.now (path, weight) }
        requires sorted { IsSorted net.now run.now places.now self.old }
        ensures sorted { OnOk result (IsSorted net.now run.now places.now self.new) }
        ensures weights { OnOk result ((e : ℕ) → weight_sorted self.new e ≡ weight_sorted self.old e + cond (has_edge path e) weight 0) }
        ensures less { OnOk result (turns_left self.new ≤ turns_left self.old) }
    {
        let Some(exit) = first_exit(net, run, places, path.as_slice()) else {
            self.settled.push((path, weight))?;
            return Ok(());
        };
        let Some((carrier, carried)) = self.carriers.pop() else {
            self.settled.push((path, weight))?;
            return Ok(());
        };
        self.exchange(alloc, net, run, path, weight, carrier, carried, exit)?;
        Ok(())
    }

    /// Settles the pending entries one after another.
    pub fn settle(
        &mut self,
        alloc: Global,
        net: &Net,
        run: &[u32],
        places: &[usize],
    ) -> Result<(), AllocError>
        requires net { IsNet net.now }
        requires run { IsRun net.now run.now }
        requires places { ArePlacesAlong net.now run.now places.now }
        requires sorted { IsSorted net.now run.now places.now self.old }
        ensures sorted { OnOk result (IsSorted net.now run.now places.now self.new) }
        ensures weights { OnOk result ((e : ℕ) → weight_sorted self.new e ≡ weight_sorted self.old e) }
        ensures none_left { OnOk result (self.new.pending.items ≡ []) }
    {
        while let Some((path, weight)) = self.pending.pop() {
            self.settle_entry(alloc, net, run, places, path, weight)?;
        }
        Ok(())
    }

    /// The entries on the run and the settled ones.
    pub fn answer(self, alloc: Global) -> Result<Answer, AllocError>
        requires carriers { All (λ entry. 1 ≤ entry.1) self.carriers.items }
        requires settled { All (λ entry. 1 ≤ entry.1) self.settled.items }
        ensures { IfOk result (λ answer. answer ≡ self.carriers.items ++ self.settled.items) }
    {
        let mut answer = Answer::new(alloc);
        push_all(&mut answer, self.carriers)?;
        push_all(&mut answer, self.settled)?;
        Ok(answer)
    }
}
