//! The constraints of a block while its lines come.
ghost use Rattle.std.specs.Prelude.{◌≡◌, ℕ, ◌<◌, true, false, List, [], map, IfOk, MatchOption, MatchResult, Some, None};
ghost use Rattle.std.specs.Borrow.{Bor};
ghost use Rattle.graph_text.specs.Constraints.{spelled};
ghost use Rattle.graph_text.specs.Lines.{fields_of, are_run_fields};
ghost use Rattle.graph_text.specs.LineFaults.{fault_of_list, fault_of_run};
ghost use Rattle.graph_text.specs.Reading.{Line, run_of, has_unknown};
ghost use Rattle.graph_text.specs.ShownLine.{ShowsLine};

use crate::fields::fields;
use crate::labels::Labels;
use dag_net::{IdLists, Ids};
use indexmap::IndexMap;
use report_terms::Why;
use std::alloc::{AllocError, Global};
use std::marker::Model;

/// The most distinct constraints of a block.
const MOST_CONSTRAINTS: usize = 256;

/// The names in a row, each with a space behind it.
fn spelled(alloc: Global, names: &[&[u8]]) -> Result<Vec<u8>, AllocError>
    ensures { IfOk result (λ text. text.items ≡ spelled (map (λ (name : Bor (List ℕ)). name.now) names.now)) }
{
    let mut text = Vec::new(alloc);
    for name in names {
        text.extend_from_slice(name)?;
        text.push(b' ')?;
    }
    Ok(text)
}

/// The edges between neighbours, where each two of them are joined by one.
fn run_between(alloc: Global, labels: &Labels, names: &[&[u8]]) -> Result<Option<Ids>, AllocError>
    ensures { let vertices = map (λ (name : Bor (List ℕ)). name.now) names.now in
        IfOk result (λ found. MatchOption found (has_unknown labels.now.names labels.now.edges vertices ≡ true)
        (λ run. (run ≡ run_of labels.now.names labels.now.edges vertices) × (has_unknown labels.now.names labels.now.edges vertices ≡ false))) }
{
    let mut run = Ids::new(alloc);
    for i in 1..names.len() {
        let Some(edge) = labels.edge_between(names[i - 1], names[i]) else {
            return Ok(None);
        };
        run.push(edge)?;
    }
    Ok(Some(run))
}

/// The distinct constraints of a block, each spelled once, with the number of its first line.
#[derive(Drop)]
pub struct Constraints {
    entries: IndexMap<Vec<u8>, u64>,
}

impl Model for Constraints {
    ghost use Rattle.std.specs.Prelude.{List};
    ghost use Rattle.graph_text.specs.Constraints.{Listing};
    ghost use Rattle.graph_text.specs.KeptConstraints.{shown, AreSpelled};

    ghost Value = { List Listing };

    ghost view = { shown };

    ghost invariant = { AreSpelled };
}

impl Constraints {
    ghost use Rattle.graph_text.specs.Constraints.{Listing, listing_of, with_listing, first_unknown};

    /// None yet. Takes no memory.
    pub fn new(alloc: Global) -> Constraints
        ensures { result ≡ [] }
    {
        Constraints {
            entries: IndexMap::new(alloc),
        }
    }

    /// Takes the vertices that the `#S` line of this number lists, or says what is wrong with them. A list that is there
    /// already is not kept again.
    fn add(&mut self, number: u64, names: &[&[u8]]) -> Result<Option<Why>, AllocError>
        requires fields { let vertices = map (λ (name : Bor (List ℕ)). name.now) names.now in fields_of (spelled vertices) ≡ vertices }
        ensures fault { let vertices = map (λ (name : Bor (List ℕ)). name.now) names.now in
            IfOk result (λ fault. fault ≡ fault_of_list (map (λ (c : Listing). c.names) self.old) vertices) }
        ensures added { let vertices = map (λ (name : Bor (List ℕ)). name.now) names.now in
            IfOk result (λ fault. fault ≡ None → self.new ≡ with_listing self.old (record { number = number; names = vertices })) }
    {
        if names.len() < 2 {
            return Ok(Some(Why::ShortConstraint));
        }
        let text = spelled(*self.entries.allocator(), names)?;
        if self.entries.contains_key(text.as_slice()) {
            return Ok(None);
        }
        if self.entries.len() == MOST_CONSTRAINTS {
            return Ok(Some(Why::TooManyConstraints));
        }
        let _earlier = self.entries.insert(text, number)?;
        Ok(None)
    }

    /// Takes a `#S` line, or says what is wrong with it.
    pub fn add_line(
        &mut self,
        number: u64,
        is_long: bool,
        text: &[u8],
    ) -> Result<Option<Why>, AllocError>
        requires { are_run_fields (fields_of text.now) ≡ true }
        ensures fault { IfOk result (λ fault. (line : Line) → ShowsLine number is_long text.now line
            → fault ≡ fault_of_run (map (λ (c : Listing). c.names) self.old) line) }
        ensures added { IfOk result (λ fault. (line : Line) → ShowsLine number is_long text.now line
            → fault ≡ None → self.new ≡ with_listing self.old (listing_of line)) }
    {
        if is_long {
            return Ok(Some(Why::LongLine));
        }
        let fields = fields(*self.entries.allocator(), text)?;
        self.add(number, &fields[1..])
    }

    /// The runs of the constraints, or the number of the first line that lists two neighbours that are no edge.
    pub fn runs(&self, alloc: Global, labels: &Labels) -> Result<Result<IdLists, u64>, AllocError>
        ensures { IfOk result (λ found. MatchResult found
            (λ runs. (first_unknown labels.now self.now ≡ None) × (runs ≡ map (λ (c : Listing). run_of labels.now.names labels.now.edges c.names) self.now))
            (λ number. first_unknown labels.now self.now ≡ Some number)) }
    {
        let mut runs = IdLists::new(alloc);
        for (text, number) in &self.entries {
            let names = fields(alloc, text)?;
            let Some(run) = run_between(alloc, labels, &names)? else {
                return Ok(Err(*number));
            };
            runs.push(run)?;
        }
        Ok(Ok(runs))
    }
}
