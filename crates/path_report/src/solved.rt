//! The lines of what was found for a graph.
ghost use Rattle.std.specs.Prelude.{[], ◌∷◌, codes, IsTrue};
ghost use Rattle.report_reading.specs.ReportText.{line, number_or_none, mark_word, marks_text, solved_text, is_regular_solved};
ghost use Rattle.path_report.specs.Sending.{PutsText};

use crate::certs::put_cert;
use crate::digits::Digits;
use crate::page::Page;
use crate::paths::{put_paths, put_safe};
use crate::trails::put_trail_if_any;
use flow_io::{Fault, Output};
use graph_text::Labels;
use report_reading::words::word_of;
use report_terms::{Mark, Solved};

/// The mark and the bounds, the paths, the certificate, the trail, and the safe runs.
pub fn put_solved<O: Output>(
    page: &mut Page,
    out: &mut O,
    solved: &Solved,
    labels: &Labels,
) -> Result<(), Fault>
    requires { IsTrue (is_regular_solved labels.now solved.now) }
    ensures { PutsText (solved_text labels.now solved.now) O.written O.faults out.old out.new page.old page.new result }
{
    put_marks(page, out, solved)?;
    put_paths(page, out, &solved.paths, labels)?;
    put_cert(page, out, &solved.cert, labels)?;
    put_trail_if_any(page, out, &solved.trail)?;
    put_safe(page, out, &solved.safe, labels)
}

/// The lines of the mark and of the two bounds.
fn put_marks<O: Output>(page: &mut Page, out: &mut O, solved: &Solved) -> Result<(), Fault>
    ensures { PutsText (marks_text solved.now) O.written O.faults out.old out.new page.old page.new result }
{
    put_mark(page, out, solved.mark)?;
    put_bound(page, out, b"lower", solved.lower)?;
    put_bound(page, out, b"upper", solved.upper)
}

/// The line of the mark.
fn put_mark<O: Output>(page: &mut Page, out: &mut O, mark: Mark) -> Result<(), Fault>
    ensures { PutsText (line (codes "mark" ∷ mark_word mark ∷ [])) O.written O.faults out.old out.new page.old page.new result }
{
    page.line(out, b"mark", &[word_of(mark)])
}

/// The line of a bound.
fn put_bound<O: Output>(
    page: &mut Page,
    out: &mut O,
    word: &[u8],
    bound: Option<u64>,
) -> Result<(), Fault>
    ensures { PutsText (line (word.now ∷ number_or_none bound ∷ [])) O.written O.faults out.old out.new page.old page.new result }
{
    match bound {
        None => page.line(out, word, &[b"none"]),
        Some(number) => page.line(out, word, &[Digits::of(number).as_slice()]),
    }
}
