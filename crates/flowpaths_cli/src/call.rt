//! The top call.
ghost use Rattle.std.specs.Prelude.{◌≡◌, ◌⊎◌, ℕ, List, ◌≢◌, is_some, IfSome, IfNone, IsNone};
ghost use Rattle.flow_io.specs.Outside.{Rose};
ghost use Rattle.flowpaths_cli.specs.Generated.{EndsSolved, WritesCounts};
ghost use Rattle.flowpaths_cli.specs.Right.{AreBuilt};
ghost use Rattle.flowpaths_cli.specs.Words.{texts, settings_of};
ghost use Rattle.flowpaths_cli.specs.Run.{WhereSeen, WhereWritten, Reads, Writes, Notes, note_of};

use crate::generated::report_generated;
use crate::reporting::Reporting;
use crate::settings::Settings;
use crate::telling::tell;
use crate::words::WordFault;
use block_runs::run_input;
use flow_io::{Inputs, Output, Status};
use std::alloc::Global;

/// Reads the input that the words name, and writes a report for each of its blocks; or solves the generated text of a seed, and writes four lines on it.
pub fn flowpaths<I: Inputs, O: Output, E: Output>(
    alloc: Global,
    words: &[String],
    inputs: &mut I,
    out: &mut O,
    notes: &mut E,
) -> Status
    // The input that the words name may be asked for.
    requires { IfSome (settings_of (texts words.now)) (λ s. IfNone s.demo (I.may_ask inputs.old s.file)) }

    // What was read, where the inputs tell it. Where memory is wanting for the words, nothing is asked for, read or written.
    ensures reads { IfSome (settings_of (texts words.now)) (λ s. IfNone s.demo
        (((result ≡ Status.Memory) × (inputs.new ≡ inputs.old) × (out.new ≡ out.old))
        ⊎ WhereSeen (I.holds inputs.old s.file) (I.selected inputs.new) (Reads s result))) }

    // What was written, where the inputs and the output tell it.
    ensures writes { IfSome (settings_of (texts words.now)) (λ s. IfNone s.demo
        (WhereSeen (I.holds inputs.old s.file) (I.selected inputs.new) (λ seen.
        WhereWritten (O.written out.old) (O.written out.new)
        (Writes s result (Rose (O.faults out.old) (O.faults out.new)) seen)))) }

    // A run with a seed leaves the inputs alone, and ends where all graphs are solved, at a fault of the output, or for want of memory.
    ensures generated { IfSome (settings_of (texts words.now)) (λ s. IfSome s.demo (λ seed.
        (inputs.new ≡ inputs.old) × EndsSolved result (Rose (O.faults out.old) (O.faults out.new)))) }

    // It writes the counts of right reports for the blocks of its text.
    ensures counts { IfSome (settings_of (texts words.now)) (λ s. IfSome s.demo (λ seed.
        WhereWritten (O.written out.old) (O.written out.new) (WritesCounts s seed result))) }

    // Refused words are the cause of `Words`; where memory is wanting to read them, `Memory` comes in its place. Nothing is asked for, read or written then.
    ensures words { result ≡ Status.Words → IsNone (settings_of (texts words.now)) }
    ensures refused { IsNone (settings_of (texts words.now)) → (result ≡ Status.Words) ⊎ (result ≡ Status.Memory) }
    ensures untouched { IsNone (settings_of (texts words.now)) → (inputs.new ≡ inputs.old) × (out.new ≡ out.old) }

    // A fault of the input or of the output is the cause of `Fault`.
    ensures fault { result ≡ Status.Fault → Rose (I.faults inputs.old) (I.faults inputs.new)
        ⊎ Rose (O.faults out.old) (O.faults out.new) }

    // The line of the answer, or a beginning of it where a fault came.
    ensures notes { Notes (note_of result) (E.written notes.old) (E.written notes.new)
        (Rose (E.faults notes.old) (E.faults notes.new)) }

    // What the inputs hold stays, and so does what is told.
    ensures holds { (any : List ℕ) → I.holds inputs.new any ≡ I.holds inputs.old any }
    ensures told { is_some (I.selected inputs.new) ≡ is_some (I.selected inputs.old) }
{
    let status = run(alloc, words, inputs, out);
    tell(status, notes);
    status
}

/// The top call without its notes.
fn run<I: Inputs, O: Output>(alloc: Global, words: &[String], inputs: &mut I, out: &mut O) -> Status
    requires { IfSome (settings_of (texts words.now)) (λ s. IfNone s.demo (I.may_ask inputs.old s.file)) }
    ensures reads { IfSome (settings_of (texts words.now)) (λ s. IfNone s.demo
        (((result ≡ Status.Memory) × (inputs.new ≡ inputs.old) × (out.new ≡ out.old))
        ⊎ WhereSeen (I.holds inputs.old s.file) (I.selected inputs.new) (Reads s result))) }
    ensures writes { IfSome (settings_of (texts words.now)) (λ s. IfNone s.demo
        (WhereSeen (I.holds inputs.old s.file) (I.selected inputs.new) (λ seen.
        WhereWritten (O.written out.old) (O.written out.new)
        (Writes s result (Rose (O.faults out.old) (O.faults out.new)) seen)))) }
    ensures generated { IfSome (settings_of (texts words.now)) (λ s. IfSome s.demo (λ seed.
        (inputs.new ≡ inputs.old) × EndsSolved result (Rose (O.faults out.old) (O.faults out.new)))) }
    ensures counts { IfSome (settings_of (texts words.now)) (λ s. IfSome s.demo (λ seed.
        WhereWritten (O.written out.old) (O.written out.new) (WritesCounts s seed result))) }
    ensures words { result ≡ Status.Words → IsNone (settings_of (texts words.now)) }
    ensures refused { IsNone (settings_of (texts words.now)) → (result ≡ Status.Words) ⊎ (result ≡ Status.Memory) }
    ensures untouched { IsNone (settings_of (texts words.now)) → (inputs.new ≡ inputs.old) × (out.new ≡ out.old) }
    ensures fault { result ≡ Status.Fault → Rose (I.faults inputs.old) (I.faults inputs.new)
        ⊎ Rose (O.faults out.old) (O.faults out.new) }
    ensures holds { (any : List ℕ) → I.holds inputs.new any ≡ I.holds inputs.old any }
    ensures told { is_some (I.selected inputs.new) ≡ is_some (I.selected inputs.old) }
{
    match Settings::of_words(alloc, words) {
        Ok(settings) => run_settings(alloc, &settings, inputs, out),
        Err(WordFault::Words) => Status::Words,
        Err(WordFault::Memory) => Status::Memory,
    }
}

/// The run that the settings ask for: over an input, or over a generated text.
fn run_settings<I: Inputs, O: Output>(
    alloc: Global,
    settings: &Settings,
    inputs: &mut I,
    out: &mut O,
) -> Status
    requires built { AreBuilt settings.now }
    requires may_ask { IfNone settings.now.demo (I.may_ask inputs.old settings.now.file) }
    ensures reads { IfNone settings.now.demo (WhereSeen (I.holds inputs.old settings.now.file) (I.selected inputs.new) (Reads settings.now result)) }
    ensures writes { IfNone settings.now.demo (WhereSeen (I.holds inputs.old settings.now.file) (I.selected inputs.new) (λ seen.
        WhereWritten (O.written out.old) (O.written out.new)
        (Writes settings.now result (Rose (O.faults out.old) (O.faults out.new)) seen))) }
    ensures generated { IfSome settings.now.demo (λ seed. (inputs.new ≡ inputs.old) × EndsSolved result (Rose (O.faults out.old) (O.faults out.new))) }
    ensures counts { IfSome settings.now.demo (λ seed. WhereWritten (O.written out.old) (O.written out.new) (WritesCounts settings.now seed result)) }
    ensures not_words { result ≢ Status.Words }
    ensures fault { result ≡ Status.Fault → Rose (I.faults inputs.old) (I.faults inputs.new)
        ⊎ Rose (O.faults out.old) (O.faults out.new) }
    ensures holds { (any : List ℕ) → I.holds inputs.new any ≡ I.holds inputs.old any }
    ensures told { is_some (I.selected inputs.new) ≡ is_some (I.selected inputs.old) }
{
    match settings.demo {
        Some(seed) => report_generated(alloc, settings, seed, out),
        None => report_input(alloc, settings, inputs, out),
    }
}

/// Reports the blocks of the input that the settings name.
fn report_input<I: Inputs, O: Output>(
    alloc: Global,
    settings: &Settings,
    inputs: &mut I,
    out: &mut O,
) -> Status
    requires built { AreBuilt settings.now }
    requires may_ask { I.may_ask inputs.old settings.now.file }
    ensures reads { WhereSeen (I.holds inputs.old settings.now.file) (I.selected inputs.new) (Reads settings.now result) }
    ensures writes { WhereSeen (I.holds inputs.old settings.now.file) (I.selected inputs.new) (λ seen.
        WhereWritten (O.written out.old) (O.written out.new)
        (Writes settings.now result (Rose (O.faults out.old) (O.faults out.new)) seen)) }
    ensures not_words { result ≢ Status.Words }
    ensures fault { result ≡ Status.Fault → Rose (I.faults inputs.old) (I.faults inputs.new)
        ⊎ Rose (O.faults out.old) (O.faults out.new) }
    ensures holds { (any : List ℕ) → I.holds inputs.new any ≡ I.holds inputs.old any }
    ensures told { is_some (I.selected inputs.new) ≡ is_some (I.selected inputs.old) }
{
    let mut reporting = Reporting {
        settings,
        status: Status::Clean,
    };
    run_input(alloc, &mut reporting, settings.file.as_str(), inputs, out)
}
