//! The top call.
ghost use Rattle.std.specs.Prelude.{◌≡◌, ◌≢◌, ◌↔◌, ◌⊎◌, ◌<◌, ◌^◌, ℕ, List, is_some, length, IfSome, IsNone};
ghost use Rattle.flow_io.specs.Outside.{Rose};
ghost use Rattle.flowcheck_cli.specs.Checking.{BeginsRight};
ghost use Rattle.flowcheck_cli.specs.Notes.{Notes, note_of};
ghost use Rattle.flowcheck_cli.specs.Run.{WhereBothSeen, WhereWritten, Reads, Writes};
ghost use Rattle.flowcheck_cli.specs.Words.{texts, names_of};

use crate::checking::Checking;
use crate::telling::tell;
use crate::words::Names;
use block_runs::{read_input, run_selected};
use flow_io::{Inputs, Output, Status};
use std::alloc::Global;

/// Checks the reports that the second word names against the graphs that the first word names, and writes a line for each graph that has
/// a report.
pub fn flowcheck<I: Inputs, O: Output, E: Output>(
    alloc: Global,
    words: &[String],
    inputs: &mut I,
    out: &mut O,
    notes: &mut E,
) -> Status
    // The inputs that the words name may be asked for.
    requires { IfSome (names_of (texts words.now)) (λ names. I.may_ask inputs.old names.graph × I.may_ask inputs.old names.report) }

    // What was read, where the inputs tell it.
    ensures reads { IfSome (names_of (texts words.now)) (λ names.
        WhereBothSeen (I.holds inputs.old names.graph) (I.holds inputs.old names.report) (I.selected inputs.new) (Reads names result)) }

    // What was written, where the inputs and the output tell it.
    ensures writes { IfSome (names_of (texts words.now)) (λ names.
        WhereBothSeen (I.holds inputs.old names.graph) (I.holds inputs.old names.report) (I.selected inputs.new) (λ seen.
        WhereWritten (O.written out.old) (O.written out.new)
        (Writes names result (Rose (O.faults out.old) (O.faults out.new)) seen))) }

    // Words that name no two inputs are the cause of `Words`. Nothing is asked for, read or written then.
    ensures words { (result ≡ Status.Words) ↔ IsNone (names_of (texts words.now)) }
    ensures untouched { IsNone (names_of (texts words.now)) → (inputs.new ≡ inputs.old) × (out.new ≡ out.old) }

    // A fault of the inputs or of the output is the cause of `Fault`.
    ensures fault { result ≡ Status.Fault → Rose (I.faults inputs.old) (I.faults inputs.new)
        ⊎ Rose (O.faults out.old) (O.faults out.new) }

    // The line of the answer, or a beginning of it where a fault came.
    ensures notes { Notes (note_of result) (E.written notes.old) (E.written notes.new)
        (Rose (E.faults notes.old) (E.faults notes.new)) }

    // What the inputs hold stays, and so does what is told.
    ensures holds { (any : List ℕ) → I.holds inputs.new any ≡ I.holds inputs.old any }
    ensures told { is_some (I.selected inputs.new) ≡ is_some (I.selected inputs.old) }
{
    let status = run(alloc, words, inputs, out);
    tell(status, notes);
    status
}

/// The top call without its notes.
fn run<I: Inputs, O: Output>(alloc: Global, words: &[String], inputs: &mut I, out: &mut O) -> Status
    requires { IfSome (names_of (texts words.now)) (λ names. I.may_ask inputs.old names.graph × I.may_ask inputs.old names.report) }
    ensures reads { IfSome (names_of (texts words.now)) (λ names.
        WhereBothSeen (I.holds inputs.old names.graph) (I.holds inputs.old names.report) (I.selected inputs.new) (Reads names result)) }
    ensures writes { IfSome (names_of (texts words.now)) (λ names.
        WhereBothSeen (I.holds inputs.old names.graph) (I.holds inputs.old names.report) (I.selected inputs.new) (λ seen.
        WhereWritten (O.written out.old) (O.written out.new)
        (Writes names result (Rose (O.faults out.old) (O.faults out.new)) seen))) }
    ensures words { (result ≡ Status.Words) ↔ IsNone (names_of (texts words.now)) }
    ensures untouched { IsNone (names_of (texts words.now)) → (inputs.new ≡ inputs.old) × (out.new ≡ out.old) }
    ensures fault { result ≡ Status.Fault → Rose (I.faults inputs.old) (I.faults inputs.new)
        ⊎ Rose (O.faults out.old) (O.faults out.new) }
    ensures holds { (any : List ℕ) → I.holds inputs.new any ≡ I.holds inputs.old any }
    ensures told { is_some (I.selected inputs.new) ≡ is_some (I.selected inputs.old) }
{
    match Names::of_words(words) {
        Some(names) => run_inputs(alloc, names.graph, names.report, inputs, out),
        None => Status::Words,
    }
}

/// Reads the reports, and then checks the graphs.
fn run_inputs<I: Inputs, O: Output>(
    alloc: Global,
    graph: &str,
    report: &str,
    inputs: &mut I,
    out: &mut O,
) -> Status
    requires differ { graph.now ≢ report.now }
    requires may_ask { I.may_ask inputs.old graph.now × I.may_ask inputs.old report.now }
    ensures reads { WhereBothSeen (I.holds inputs.old graph.now) (I.holds inputs.old report.now) (I.selected inputs.new)
        (Reads (record { graph = graph.now; report = report.now }) result) }
    ensures writes { WhereBothSeen (I.holds inputs.old graph.now) (I.holds inputs.old report.now) (I.selected inputs.new) (λ seen.
        WhereWritten (O.written out.old) (O.written out.new)
        (Writes (record { graph = graph.now; report = report.now }) result (Rose (O.faults out.old) (O.faults out.new)) seen)) }
    ensures not_words { result ≢ Status.Words }
    ensures fault { result ≡ Status.Fault → Rose (I.faults inputs.old) (I.faults inputs.new)
        ⊎ Rose (O.faults out.old) (O.faults out.new) }
    ensures holds { (any : List ℕ) → I.holds inputs.new any ≡ I.holds inputs.old any }
    ensures told { is_some (I.selected inputs.new) ≡ is_some (I.selected inputs.old) }
{
    match read_input(alloc, report, inputs) {
        Ok(reports) => check_input(alloc, graph, reports.as_slice(), inputs, out),
        Err(status) => status,
    }
}

/// Selects the graph text, and checks it against the reports.
fn check_input<I: Inputs, O: Output>(
    alloc: Global,
    graph: &str,
    reports: &[u8],
    inputs: &mut I,
    out: &mut O,
) -> Status
    requires may_ask { I.may_ask inputs.old graph.now }
    requires short { length reports.now < 2 ^ 30 }
    ensures right { BeginsRight graph.now reports.now result (I.holds inputs.old graph.now) (I.selected inputs.new)
        (O.written out.old) (O.written out.new) (Rose (O.faults out.old) (O.faults out.new)) }
    ensures fault { result ≡ Status.Fault → Rose (I.faults inputs.old) (I.faults inputs.new)
        ⊎ Rose (O.faults out.old) (O.faults out.new) }
    ensures holds { (any : List ℕ) → I.holds inputs.new any ≡ I.holds inputs.old any }
    ensures told { is_some (I.selected inputs.new) ≡ is_some (I.selected inputs.old) }
{
    if inputs.select(graph).is_err() {
        return Status::Fault;
    }
    let mut checking = Checking::of(reports);
    run_selected(alloc, &mut checking, inputs, out)
}
