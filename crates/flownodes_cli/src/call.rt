//! The top call.
ghost use Rattle.std.specs.Prelude.{◌≡◌, ◌≢◌, ◌⊎◌, ◌↔◌, ◌<◌, ◌^◌, ℕ, List, is_some, length, IfSome, IsNone};
ghost use Rattle.flow_io.specs.Outside.{Rose};
ghost use Rattle.flownodes_cli.specs.Run.{WhereSeen, WhereWritten, Reads, Writes, Notes, note_of};
ghost use Rattle.flownodes_cli.specs.Words.{texts, call_of};

use crate::answering::answer;
use crate::telling::tell;
use crate::words::Call;
use block_runs::read_input;
use flow_io::{Inputs, Output, Status};
use std::alloc::Global;

/// Reads the graph with weights on its vertices that the words name, and writes fewest routes with the report that proves them; or the text of its split graph.
pub fn flownodes<I: Inputs, O: Output, E: Output>(
    alloc: Global,
    words: &[String],
    inputs: &mut I,
    out: &mut O,
    notes: &mut E,
) -> Status
    // The input that the words name may be asked for.
    requires { IfSome (call_of (texts words.now)) (λ call. I.may_ask inputs.old call.file) }

    // What was read, where the inputs tell it.
    ensures reads { IfSome (call_of (texts words.now)) (λ call.
        WhereSeen (I.holds inputs.old call.file) (I.selected inputs.new) (Reads call result)) }

    // What was written, where the inputs and the output tell it.
    ensures writes { IfSome (call_of (texts words.now)) (λ call.
        WhereSeen (I.holds inputs.old call.file) (I.selected inputs.new) (λ seen.
        WhereWritten (O.written out.old) (O.written out.new) (Writes call result seen))) }

    // Words that ask for nothing are the cause of `Words`. No input is asked for or read then, and nothing is written.
    ensures words { (result ≡ Status.Words) ↔ IsNone (call_of (texts words.now)) }
    ensures untouched { IsNone (call_of (texts words.now)) → (inputs.new ≡ inputs.old) × (out.new ≡ out.old) }

    // A fault of the input or of the output is the cause of `Fault`.
    ensures fault { result ≡ Status.Fault → Rose (I.faults inputs.old) (I.faults inputs.new)
        ⊎ Rose (O.faults out.old) (O.faults out.new) }

    // The line of the answer, or a beginning of it where a fault came.
    ensures notes { Notes (note_of result) (E.written notes.old) (E.written notes.new)
        (Rose (E.faults notes.old) (E.faults notes.new)) }

    // What the inputs hold stays, and so does what is told.
    ensures holds { (any : List ℕ) → I.holds inputs.new any ≡ I.holds inputs.old any }
    ensures told { is_some (I.selected inputs.new) ≡ is_some (I.selected inputs.old) }
{
    let status = run(alloc, words, inputs, out);
    tell(status, notes);
    status
}

/// The top call without its notes.
fn run<I: Inputs, O: Output>(alloc: Global, words: &[String], inputs: &mut I, out: &mut O) -> Status
    requires { IfSome (call_of (texts words.now)) (λ call. I.may_ask inputs.old call.file) }
    ensures reads { IfSome (call_of (texts words.now)) (λ call.
        WhereSeen (I.holds inputs.old call.file) (I.selected inputs.new) (Reads call result)) }
    ensures writes { IfSome (call_of (texts words.now)) (λ call.
        WhereSeen (I.holds inputs.old call.file) (I.selected inputs.new) (λ seen.
        WhereWritten (O.written out.old) (O.written out.new) (Writes call result seen))) }
    ensures words { (result ≡ Status.Words) ↔ IsNone (call_of (texts words.now)) }
    ensures untouched { IsNone (call_of (texts words.now)) → (inputs.new ≡ inputs.old) × (out.new ≡ out.old) }
    ensures fault { result ≡ Status.Fault → Rose (I.faults inputs.old) (I.faults inputs.new)
        ⊎ Rose (O.faults out.old) (O.faults out.new) }
    ensures holds { (any : List ℕ) → I.holds inputs.new any ≡ I.holds inputs.old any }
    ensures told { is_some (I.selected inputs.new) ≡ is_some (I.selected inputs.old) }
{
    match Call::of_words(words) {
        Some(call) => run_file(alloc, call.split, call.file, inputs, out),
        None => Status::Words,
    }
}

/// Reads the input whole, and answers it.
fn run_file<I: Inputs, O: Output>(
    alloc: Global,
    split: bool,
    file: &str,
    inputs: &mut I,
    out: &mut O,
) -> Status
    requires may_ask { I.may_ask inputs.old file.now }
    ensures reads { WhereSeen (I.holds inputs.old file.now) (I.selected inputs.new)
        (Reads (record { split = split; file = file.now }) result) }
    ensures writes { WhereSeen (I.holds inputs.old file.now) (I.selected inputs.new) (λ seen.
        WhereWritten (O.written out.old) (O.written out.new) (Writes (record { split = split; file = file.now }) result seen)) }
    ensures not_words { result ≢ Status.Words }
    ensures fault { result ≡ Status.Fault → Rose (I.faults inputs.old) (I.faults inputs.new)
        ⊎ Rose (O.faults out.old) (O.faults out.new) }
    ensures holds { (any : List ℕ) → I.holds inputs.new any ≡ I.holds inputs.old any }
    ensures told { is_some (I.selected inputs.new) ≡ is_some (I.selected inputs.old) }
{
    match read_input(alloc, file, inputs) {
        Ok(text) => answer(alloc, split, text.as_slice(), out),
        Err(status) => status,
    }
}
