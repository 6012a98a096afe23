//! What is known of a block while its lines come.
ghost use Rattle.std.specs.Prelude.{◌≡◌, ℕ, true, ◌||◌, ◌==◌, ◌<◌, List, [], ◌∷◌, ◌++◌, length, All, IfOk, IfSome, IfNone, OnOk, false};
ghost use Rattle.std.specs.List.{list_any};
ghost use Rattle.decomposition.specs.declared.Mode.{Mode as Model};
ghost use Rattle.graph_text.specs.LineFaults.{NoneRefused, fault_of_count, refusal_at, without_count};
ghost use Rattle.graph_text.specs.ShownLine.{ShowsLine};
ghost use Rattle.graph_text.specs.Lines.{fields_of, are_run_fields};
ghost use Rattle.graph_text.specs.Reading.{Line, filled_lines, read_lines};

use crate::block::RawGraph;
use crate::constraints::Constraints;
use crate::draft_graph::DraftGraph;
use crate::fields::{fields, is_blank_text, is_count, is_hash_text, is_run_text};
use dag_net::Mode;
use report_terms::{Refusal, Why};
use std::alloc::{AllocError, Global};

/// The refusal of a line with this fault.
fn refusal_at(line: u64, fault: Option<Why>) -> Option<Refusal>
    ensures { result ≡ refusal_at line fault }
{
    match fault {
        Some(why) => Some(Refusal { line, why }),
        None => None,
    }
}

/// What is wrong with a count line.
fn count_fault(alloc: Global, is_long: bool, text: &[u8]) -> Result<Option<Why>, AllocError>
    ensures { IfOk result (λ fault. (number : ℕ) (line : Line) → ShowsLine number is_long text.now line → fault ≡ fault_of_count line) }
{
    if is_long {
        return Ok(Some(Why::LongLine));
    }
    let fields = fields(alloc, text)?;
    let is_bad = !is_count(&fields);
    Ok(is_bad.then_some(Why::BadCount))
}

/// The refusal of a block without a content line, by the first one of its lines and its last line that is not blank. On
/// that line `BadCount` counts before all but `LongLine`.
fn without_count(refusal: Option<Refusal>, last: u64) -> Refusal
    ensures { result ≡ without_count refusal last }
{
    match refusal {
        Some(refusal) if refusal.line < last || matches!(refusal.why, Why::LongLine) => refusal,
        _ => Refusal {
            line: last,
            why: Why::BadCount,
        },
    }
}

/// The graph of a block as far as its lines have come, or the first refusal among them.
#[derive(Drop)]
pub struct Draft {
    mode: Mode,
    refusal: Option<Refusal>,
    /// The last line that is not blank.
    last_filled: Option<u64>,
    is_filled: bool,
    has_run: bool,
    constraints: Constraints,
    graph: DraftGraph,
}

impl Draft {
    ghost use Rattle.graph_text.specs.Draft.{Drafts, is_content, is_run};
    ghost use Rattle.graph_text.specs.ShownLine.{IsComment, IsRunLine, IsContent};

    /// No line yet.
    pub fn new(alloc: Global, mode: Mode) -> Draft
        ensures { Drafts mode [] result }
    {
        Draft {
            mode,
            refusal: None,
            last_filled: None,
            is_filled: false,
            has_run: false,
            constraints: Constraints::new(alloc),
            graph: DraftGraph::new(alloc),
        }
    }

    /// Whether a content line has come.
    pub fn is_filled(&self) -> bool
        ensures { (mode : Model) (lines : List Line) → Drafts mode lines self.now → result ≡ list_any is_content lines }
    {
        self.is_filled
    }

    /// Whether the lines are a graph: a content line has come, or a `#S` line.
    pub fn is_graph(&self) -> bool
        ensures { (mode : Model) (lines : List Line) → Drafts mode lines self.now
            → result ≡ (list_any is_content lines || list_any is_run lines) }
    {
        self.is_filled || self.has_run
    }

    /// Takes the next line: its number, whether it is too long, and a text with its fields. After an `Err` the draft is of no use.
    pub fn add(&mut self, number: u64, is_long: bool, text: &[u8]) -> Result<(), AllocError>
        requires one_line { list_any (λ b. b == 10) text.now ≡ false }
        ensures { OnOk result ((mode : Model) (lines : List Line) (line : Line) → Drafts mode lines self.old
            → All (λ l. l.number < number) lines → ShowsLine number is_long text.now line
            → Drafts mode (lines ++ line ∷ []) self.new) }
    {
        if is_blank_text(text) {
            return Ok(());
        }
        if is_run_text(text) {
            return self.add_run(number, is_long, text);
        }
        if is_hash_text(text) {
            self.add_comment(number, is_long);
            return Ok(());
        }
        if self.is_filled {
            return self.add_edge(number, is_long, text);
        }
        self.add_count(number, is_long, text)
    }

    /// Takes a `#` line that is no `#S` line.
    fn add_comment(&mut self, number: u64, is_long: bool)
        ensures { (mode : Model) (lines : List Line) (line : Line) (text : List ℕ) → Drafts mode lines self.old
            → All (λ l. l.number < number) lines → ShowsLine number is_long text line → IsComment line
            → Drafts mode (lines ++ line ∷ []) self.new }
    {
        let fault = is_long.then_some(Why::LongLine);
        self.last_filled = Some(number);
        self.refusal = self.refusal.or(refusal_at(number, fault));
    }

    /// Takes a `#S` line.
    fn add_run(&mut self, number: u64, is_long: bool, text: &[u8]) -> Result<(), AllocError>
        requires { are_run_fields (fields_of text.now) ≡ true }
        ensures { OnOk result ((mode : Model) (lines : List Line) (line : Line) → Drafts mode lines self.old
            → All (λ l. l.number < number) lines → ShowsLine number is_long text.now line → IsRunLine line
            → Drafts mode (lines ++ line ∷ []) self.new) }
    {
        self.last_filled = Some(number);
        self.has_run = true;
        if self.refusal.is_some() {
            return Ok(());
        }
        let fault = self.constraints.add_line(number, is_long, text)?;
        self.refusal = refusal_at(number, fault);
        Ok(())
    }

    /// Takes the first content line.
    fn add_count(&mut self, number: u64, is_long: bool, text: &[u8]) -> Result<(), AllocError>
        requires { self.old.is_filled ≡ false }
        ensures { OnOk result ((mode : Model) (lines : List Line) (line : Line) → Drafts mode lines self.old
            → All (λ l. l.number < number) lines → ShowsLine number is_long text.now line → IsContent line
            → Drafts mode (lines ++ line ∷ []) self.new) }
    {
        let fault = count_fault(self.graph.allocator(), is_long, text)?;
        self.last_filled = Some(number);
        self.is_filled = true;
        self.refusal = self.refusal.or(refusal_at(number, fault));
        Ok(())
    }

    /// Takes a later content line.
    fn add_edge(&mut self, number: u64, is_long: bool, text: &[u8]) -> Result<(), AllocError>
        requires one_line { list_any (λ b. b == 10) text.now ≡ false }
        requires later { self.old.is_filled ≡ true }
        ensures { OnOk result ((mode : Model) (lines : List Line) (line : Line) → Drafts mode lines self.old
            → All (λ l. l.number < number) lines → ShowsLine number is_long text.now line → IsContent line
            → Drafts mode (lines ++ line ∷ []) self.new) }
    {
        self.last_filled = Some(number);
        if self.refusal.is_some() {
            return Ok(());
        }
        let fault = self.graph.add_line(self.mode, number, is_long, text)?;
        self.refusal = refusal_at(number, fault);
        Ok(())
    }

    /// The refusal of a line of the block for itself or for the lines before it, or for being the last where no line counts.
    fn refusal_of_lines(&self) -> Option<Refusal>
        ensures refused { (mode : Model) (lines : List Line) → Drafts mode lines self.now → 0 < length (filled_lines lines)
            → IfSome result (λ r. read_lines mode lines ≡ Err r) }
        ensures none { (mode : Model) (lines : List Line) → Drafts mode lines self.now → 0 < length (filled_lines lines)
            → IfNone result (NoneRefused mode lines) }
    {
        if self.is_filled {
            return self.refusal;
        }
        let last = self.last_filled?;
        Some(without_count(self.refusal, last))
    }

    /// What the block is read as.
    pub fn into_body(self, alloc: Global) -> Result<Result<RawGraph, Refusal>, AllocError>
        ensures { IfOk result (λ body. (mode : Model) (lines : List Line) → Drafts mode lines self
            → 0 < length (filled_lines lines) → body ≡ read_lines mode lines) }
    {
        if let Some(refusal) = self.refusal_of_lines() {
            return Ok(Err(refusal));
        }
        self.graph.into_body(alloc, self.mode, &self.constraints)
    }
}
