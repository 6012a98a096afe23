//! The top call.
ghost use Rattle.std.specs.Prelude.{◌≡◌, ◌⊎◌, ◌↔◌, ℕ, List, is_some, IfSome, IsNone};
ghost use Rattle.flow_io.specs.Outside.{Rose};
ghost use Rattle.flowruns_cli.specs.RightTexts.{AreRightTexts, AreAllRightTexts};
ghost use Rattle.flowruns_cli.specs.Run.{texts, file_in, WhereSeen, WhereWritten, Reads, Writes, Notes, note_of};

use crate::telling::tell;
use crate::weighing::Weighing;
use block_runs::run_input;
use flow_io::{Inputs, Output, Status};
use plain_words::file_in;
use std::alloc::Global;

/// Reads the input that the words name, and writes for each run that its blocks ask for the least load, and a decomposition that puts no more on the run.
pub fn flowruns<I: Inputs, O: Output, E: Output>(
    alloc: Global,
    words: &[String],
    inputs: &mut I,
    out: &mut O,
    notes: &mut E,
) -> Status
    // The input that the words name may be asked for.
    requires { IfSome (file_in (texts words.now)) (λ file. I.may_ask inputs.old file) }

    // What was read, where the inputs tell it.
    ensures reads { IfSome (file_in (texts words.now)) (λ file.
        WhereSeen (I.holds inputs.old file) (I.selected inputs.new) (Reads AreAllRightTexts file result)) }

    // What was written, where the inputs and the output tell it.
    ensures writes { IfSome (file_in (texts words.now)) (λ file.
        WhereSeen (I.holds inputs.old file) (I.selected inputs.new) (λ seen.
        WhereWritten (O.written out.old) (O.written out.new)
        (Writes AreRightTexts AreAllRightTexts file result (Rose (O.faults out.old) (O.faults out.new)) seen))) }

    // Words that name no input are the cause of `Words`. Nothing is asked for, read or written then.
    ensures words { (result ≡ Status.Words) ↔ IsNone (file_in (texts words.now)) }
    ensures untouched { IsNone (file_in (texts words.now)) → (inputs.new ≡ inputs.old) × (out.new ≡ out.old) }

    // A fault of the input or of the output is the cause of `Fault`.
    ensures fault { result ≡ Status.Fault → Rose (I.faults inputs.old) (I.faults inputs.new)
        ⊎ Rose (O.faults out.old) (O.faults out.new) }

    // The line of the answer, or a beginning of it where a fault came.
    ensures notes { Notes (note_of result) (E.written notes.old) (E.written notes.new)
        (Rose (E.faults notes.old) (E.faults notes.new)) }

    // What the inputs hold stays, and so does what is told.
    ensures holds { (any : List ℕ) → I.holds inputs.new any ≡ I.holds inputs.old any }
    ensures told { is_some (I.selected inputs.new) ≡ is_some (I.selected inputs.old) }
{
    let status = run(alloc, words, inputs, out);
    tell(status, notes);
    status
}

/// The top call without its notes.
fn run<I: Inputs, O: Output>(alloc: Global, words: &[String], inputs: &mut I, out: &mut O) -> Status
    requires { IfSome (file_in (texts words.now)) (λ file. I.may_ask inputs.old file) }
    ensures reads { IfSome (file_in (texts words.now)) (λ file.
        WhereSeen (I.holds inputs.old file) (I.selected inputs.new) (Reads AreAllRightTexts file result)) }
    ensures writes { IfSome (file_in (texts words.now)) (λ file.
        WhereSeen (I.holds inputs.old file) (I.selected inputs.new) (λ seen.
        WhereWritten (O.written out.old) (O.written out.new)
        (Writes AreRightTexts AreAllRightTexts file result (Rose (O.faults out.old) (O.faults out.new)) seen))) }
    ensures words { (result ≡ Status.Words) ↔ IsNone (file_in (texts words.now)) }
    ensures untouched { IsNone (file_in (texts words.now)) → (inputs.new ≡ inputs.old) × (out.new ≡ out.old) }
    ensures fault { result ≡ Status.Fault → Rose (I.faults inputs.old) (I.faults inputs.new)
        ⊎ Rose (O.faults out.old) (O.faults out.new) }
    ensures holds { (any : List ℕ) → I.holds inputs.new any ≡ I.holds inputs.old any }
    ensures told { is_some (I.selected inputs.new) ≡ is_some (I.selected inputs.old) }
{
    match file_in(words) {
        Some(file) => {
            let mut weighing = Weighing {
                status: Status::Clean,
            };
            run_input(alloc, &mut weighing, file, inputs, out)
        }
        None => Status::Words,
    }
}
