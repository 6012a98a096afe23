//! The first line of the text for a block, and the line of a refusal.
ghost use Rattle.std.specs.Prelude.{◌≡◌, ◌++◌, OnOk};
ghost use Rattle.report_reading.specs.ReportText.{graph_line};
ghost use Rattle.text_lines.specs.TextLines.{refused_line};

use crate::lines::add_line;
use report_reading::words::name_of;
use report_terms::Refusal;
use std::alloc::{AllocError, Global};

/// Adds the line with the number and the name of a block.
pub fn add_graph_line(
    alloc: Global,
    text: &mut Vec<u8>,
    index: u64,
    name: &[u8],
) -> Result<(), AllocError>
    ensures { OnOk result (text.new.items ≡ text.old.items ++ graph_line index name.now) }
{
    let number = format!(in alloc; "{index}")?;
    if name.is_empty() {
        add_line(text, b"graph", &[number.as_bytes()])
    } else {
        add_line(text, b"graph", &[number.as_bytes(), name])
    }
}

/// Adds the line of a refusal.
pub fn add_refused_line(
    alloc: Global,
    text: &mut Vec<u8>,
    refusal: &Refusal,
) -> Result<(), AllocError>
    ensures { OnOk result (text.new.items ≡ text.old.items ++ refused_line refusal.now) }
{
    let line = refusal.line;
    let number = format!(in alloc; "{line}")?;
    add_line(text, b"refused", &[number.as_bytes(), name_of(refusal.why)])
}
