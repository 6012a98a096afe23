//! The reader of reports.
ghost use Rattle.std.specs.Prelude.{◌≡◌, ◌==◌, None, Ok, IfOk, IfErr, OnOk};
ghost use Rattle.std.specs.List.{position};
ghost use Rattle.report_reading.specs.declared.read_fault.ReadFault.TheVariants.{Refused};
ghost use Rattle.report_reading.specs.BadLines.{step, at_last, read_from, empty_draft, text_lines, first_bad_line, bad_line, bad_at, IsTextOf, RefusesAs};

use crate::draft::{Draft, Place};
use crate::read_fault::{LineFault, ReadFault, ReadRefusal, ReadWhy};
use graph_text::Labels;
use report_terms::Report;
use std::alloc::Global;

/// The report whose text this is.
pub fn read_report(alloc: Global, text: &[u8], labels: &Labels) -> Result<Report, ReadFault>
    ensures found { IfOk result (λ report. IsTextOf labels.now report text.now) }
    ensures none_bad { OnOk result (first_bad_line labels.now text.now ≡ None) }
    ensures refused { IfErr result (RefusesAs (first_bad_line labels.now text.now)) }
{
    let draft = read_lines(alloc, text, labels)?;
    Ok(draft.report())
}

/// What the lines of a text say.
fn read_lines(alloc: Global, text: &[u8], labels: &Labels) -> Result<Draft, ReadFault>
    ensures ok { IfOk result (λ draft. read_from labels.now (text_lines text.now) 1 empty_draft ≡ Ok draft) }
    ensures err { IfErr result (RefusesAs (first_bad_line labels.now text.now)) }
{
    let mut draft = Draft::new(alloc);
    let mut rest = text;
    let mut number: u64 = 1;
    while let Some(end) = line_end(rest) {
        take_numbered(alloc, labels, &mut draft, &rest[..end], number)?;
        rest = &rest[end + 1..];
        number += 1;
    }
    close(draft, rest, number)
}

/// The place of the first line feed.
fn line_end(bytes: &[u8]) -> Option<usize>
    ensures { result ≡ position (λ b. b == 10) bytes.now }
{
    bytes.iter().position(|byte| *byte == b'\n')
}

/// Takes the line with this number.
fn take_numbered(
    alloc: Global,
    labels: &Labels,
    draft: &mut Draft,
    line: &[u8],
    number: u64,
) -> Result<(), ReadFault>
    ensures ok { OnOk result (step labels.now draft.old line.now ≡ Ok draft.new) }
    ensures err { IfErr result (RefusesAs (bad_at number (step labels.now draft.old line.now))) }
{
    match draft.take_line(alloc, labels, line) {
        Ok(()) => Ok(()),
        Err(LineFault::Bad(why)) => Err(refused(number, why)),
        Err(LineFault::Memory) => Err(ReadFault::Memory),
    }
}

/// The refusal of a line.
fn refused(line: u64, why: ReadWhy) -> ReadFault
    ensures { result ≡ Refused (record { line = line; why = why }) }
{
    ReadFault::Refused(ReadRefusal { line, why })
}

/// The draft, if its last line was `end` and no byte stands behind it.
fn close(draft: Draft, rest: &[u8], number: u64) -> Result<Draft, ReadFault>
    ensures ok { IfOk result (λ closed. at_last draft rest.now number draft.place ≡ Ok closed) }
    ensures err { IfErr result (RefusesAs (bad_line (at_last draft rest.now number draft.place))) }
{
    match draft.place {
        Place::Nothing if rest.is_empty() => Ok(draft),
        Place::Nothing => Err(refused(number, ReadWhy::BadForm)),
        _ => Err(refused(number, ReadWhy::NoEnd)),
    }
}
