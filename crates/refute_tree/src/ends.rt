//! How far walks of the first box are known to go along the rules. Of each rule one link is kept at most, so that its walk need not be
//! followed back at each token.

ghost use Rattle.std.specs.Prelude.{◌≡◌, ◌<◌, ◌+◌, ◌-◌, [], ℕ, List, length, slice_index, slice_index_or, take, Some, IfOk, IfSome, IsTrue};
ghost use Rattle.subpath_rules.specs.Follows.{Overlaps};
ghost use Rattle.link_cells.specs.Links.{slot_in, edge_in, latest_of, walk_of};
ghost use Rattle.refute_tree.specs.Ends.{IsSeen, AreSeen};

use link_cells::{Cell, Incidence};
use std::alloc::{AllocError, Global};
use subpath_rules::Rules;

/// The walk of a link's slot, up to the link, ends with so many first edges of a run.
#[derive(Clone, Copy, Debug)]
pub struct Seen {
    cell: Cell,
    count: usize,
}

/// What is seen of each rule.
#[derive(Debug, Drop)]
pub struct Known<'a> {
    rules: &'a Rules,
    seen: Vec<Option<Seen>>,
}

/// Whether a run has the edge at a place.
fn has_at(run: &[u32], place: usize, edge: u32) -> bool
    ensures { IsTrue result → (place < length run.now) × (edge ≡ slice_index run.now place) }
{
    place < run.len() && run[place] == edge
}

/// What is seen of a run at a new link, where this is more than was seen before.
fn newly_seen(links: &Incidence, newest: Cell, run: &[u32], seen: &Option<Seen>) -> Option<Seen>
    requires newest { newest < length links.now.links }
    requires seen { IfSome seen.now (IsSeen links.now.links run.now) }
    ensures { IfSome result (IsSeen links.now.links run.now) }
{
    match seen {
        Some(seen) => seen.moved_on(links, newest, run),
        None => Seen::begun(links, newest, run),
    }
}

/// What is seen without the newest link.
fn seen_before(links: &Incidence, seen: &Option<Seen>) -> Option<Seen>
    requires { IfSome seen.now (λ s. s.cell < length links.now.links) }
    ensures { (run : List ℕ) → IfSome seen.now (IsSeen links.now.links run) → IfSome result (IsSeen (take (length links.now.links - 1) links.now.links) run) }
{
    match seen {
        Some(seen) => seen.set_back(links),
        None => None,
    }
}

impl Seen {
    /// The beginning of a run at the newest link, where the link has the run's first edge.
    fn begun(links: &Incidence, newest: Cell, run: &[u32]) -> Option<Seen>
        requires newest { newest < length links.now.links }
        ensures { IfSome result (IsSeen links.now.links run.now) }
    {
        if has_at(run, 0, links.edge_of(newest)) {
            Some(Seen {
                cell: newest,
                count: 1,
            })
        } else {
            None
        }
    }

    /// Whether the newest link is the next one of the same slot, and has the run's next edge.
    fn goes_on(&self, links: &Incidence, newest: Cell, run: &[u32]) -> bool
        requires newest { newest < length links.now.links }
        ensures next { IsTrue result → latest_of links.now.links (slot_in links.now.links newest) newest ≡ Some self.now.cell }
        ensures edge { IsTrue result → (self.now.count < length run.now) × (edge_in links.now.links newest ≡ slice_index run.now self.now.count) }
    {
        match links.cell_before(newest) {
            Some(cell) => cell.is(self.cell) && has_at(run, self.count, links.edge_of(newest)),
            None => false,
        }
    }

    /// Whether the walk has the whole run up to here, or ends here.
    fn overlaps(&self, links: &Incidence, run: &[u32]) -> bool
        requires seen { IsSeen links.now.links run.now self.now }
        ensures { IsTrue result → Overlaps (walk_of links.now.links (slot_in links.now.links self.now.cell)) run.now }
    {
        self.count == run.len() || links.is_last(self.cell)
    }

    /// What is seen at the newest link: the run goes on there, or begins there where no walk is on its way already.
    fn moved_on(&self, links: &Incidence, newest: Cell, run: &[u32]) -> Option<Seen>
        requires newest { newest < length links.now.links }
        requires seen { IsSeen links.now.links run.now self.now }
        ensures { IfSome result (IsSeen links.now.links run.now) }
    {
        if self.goes_on(links, newest, run) {
            Some(Seen {
                cell: newest,
                count: self.count + 1,
            })
        } else if self.overlaps(links, run) {
            None
        } else {
            Seen::begun(links, newest, run)
        }
    }

    /// What is seen without the newest link: one edge less where it was seen there.
    fn set_back(&self, links: &Incidence) -> Option<Seen>
        requires { self.now.cell < length links.now.links }
        ensures { (run : List ℕ) → IsSeen links.now.links run self.now → IfSome result (IsSeen (take (length links.now.links - 1) links.now.links) run) }
    {
        if !links.is_newest(self.cell) {
            return Some(Seen {
                cell: self.cell,
                count: self.count,
            });
        }
        match links.cell_before(self.cell) {
            Some(cell) if self.count > 1 => Some(Seen {
                cell,
                count: self.count - 1,
            }),
            _ => None,
        }
    }
}

impl<'a> Known<'a> {
    /// Nothing is seen of any rule.
    pub fn nothing(alloc: Global, rules: &'a Rules) -> Result<Known<'a>, AllocError>
        ensures { IfOk result (λ known. (links : List (ℕ × ℕ)) → AreSeen rules.now links known) }
    {
        Ok(Known {
            rules,
            seen: vec![in alloc; None; rules.len() as usize]?,
        })
    }

    /// Takes note of the newest link.
    pub fn note(&mut self, links: &Incidence, newest: Cell)
        requires newest { newest < length links.now.links }
        requires seen { AreSeen self.old.rules.now links.now.links self.old }
        ensures { AreSeen self.old.rules.now links.now.links self.new }
    {
        for rule in 0..self.rules.len() {
            let run = self.rules.run(rule);
            let place = rule as usize;
            if let Some(seen) = newly_seen(links, newest, run, &self.seen[place]) {
                self.seen[place] = Some(seen);
            }
        }
    }

    /// Sets back what is seen at the newest link, which is to be undone.
    pub fn set_back(&mut self, links: &Incidence)
        requires { AreSeen self.old.rules.now links.now.links self.old }
        ensures { AreSeen self.old.rules.now (take (length links.now.links - 1) links.now.links) self.new }
    {
        for place in 0..self.seen.len() {
            let seen = seen_before(links, &self.seen[place]);
            self.seen[place] = seen;
        }
    }

    /// A slot whose walk is known to overlap the rule, where one is known.
    pub fn slot_on(&self, links: &Incidence, rule: u32) -> Option<u32>
        requires seen { AreSeen self.now.rules.now links.now.links self.now }
        requires rule { rule < length self.now.rules.now }
        ensures { IfSome result (λ k. (k < links.now.slots) × Overlaps (walk_of links.now.links k) (slice_index_or self.now.rules.now rule [])) }
    {
        match &self.seen[rule as usize] {
            Some(seen) if seen.overlaps(links, self.rules.run(rule)) => Some(links.slot_of(
                seen.cell,
            )),
            _ => None,
        }
    }
}
