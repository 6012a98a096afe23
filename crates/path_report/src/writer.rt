//! The writer of reports.
ghost use Rattle.std.specs.Prelude.{IsTrue, OnOk, OnErr};
ghost use Rattle.flow_io.specs.Outside.{Adds, AddsPrefix, HasCause};
ghost use Rattle.report_reading.specs.ReportText.{graph_line, model_line, body_text, text_of, is_regular_body, is_regular};
ghost use Rattle.path_report.specs.Sending.{PutsText};

use crate::digits::Digits;
use crate::page::Page;
use crate::solved::put_solved;
use dag_net::Mode;
use flow_io::{Fault, Output};
use graph_text::Labels;
use report_reading::words::name_of;
use report_terms::{Body, Report};

/// Writes the text of a report. After a fault a beginning of it was added. Takes no memory.
pub fn write_report<O: Output>(out: &mut O, report: &Report, labels: &Labels) -> Result<(), Fault>
    requires { IsTrue (is_regular labels.now report.now) }
    ensures ok { OnOk result (Adds (O.written out.old) (O.written out.new)
        (text_of labels.now report.now)) }
    ensures err { OnErr result (AddsPrefix (O.written out.old) (O.written out.new)
        (text_of labels.now report.now)) }
    ensures cause { HasCause (O.faults out.old) (O.faults out.new) result }
{
    let mut page = Page::new();
    put_graph(&mut page, out, report)?;
    put_model(&mut page, out, report.mode)?;
    put_body(&mut page, out, &report.body, labels)?;
    page.line(out, b"end", &[])?;
    page.flush(out)
}

/// The line with the number and the name of a block.
fn put_graph<O: Output>(page: &mut Page, out: &mut O, report: &Report) -> Result<(), Fault>
    ensures { PutsText (graph_line report.now.index report.now.name) O.written O.faults out.old out.new page.old page.new result }
{
    let number = Digits::of(report.index);
    let name = report.name.as_slice();
    if name.is_empty() {
        page.line(out, b"graph", &[number.as_slice()])
    } else {
        page.line(out, b"graph", &[number.as_slice(), name])
    }
}

/// The line of the model.
fn put_model<O: Output>(page: &mut Page, out: &mut O, mode: Mode) -> Result<(), Fault>
    ensures { PutsText (model_line mode) O.written O.faults out.old out.new page.old page.new result }
{
    match mode {
        Mode::Exact => page.line(out, b"model", &[b"exact"]),
        Mode::Interval => page.line(out, b"model", &[b"interval"]),
        Mode::Abs { k } => page.line(out, b"model", &[b"abs", Digits::of(k as u64).as_slice()]),
    }
}

/// The lines of a refusal, or of what was found.
fn put_body<O: Output>(
    page: &mut Page,
    out: &mut O,
    body: &Body,
    labels: &Labels,
) -> Result<(), Fault>
    requires { IsTrue (is_regular_body labels.now body.now) }
    ensures { PutsText (body_text labels.now body.now) O.written O.faults out.old out.new page.old page.new result }
{
    match body {
        Body::Refused(refusal) => {
            let number = Digits::of(refusal.line);
            page.line(out, b"refused", &[number.as_slice(), name_of(refusal.why)])
        }
        Body::Solved(solved) => put_solved(page, out, solved, labels),
    }
}
