//! The lines that tell a flow and levels.
ghost use Rattle.std.specs.Prelude.{◌≡◌, ◌<◌, List, ℕ, ◌∷◌, ◌++◌, length, map, OnOk};
ghost use Rattle.std.specs.Borrow.{Bor};
ghost use Rattle.report_reading.specs.ReportText.{line};
ghost use Rattle.flownear_cli.specs.NearText.{flow_line, flow_lines, level_line, level_lines, found_text};

use error_flow::Nearest;
use graph_text::Labels;
use std::alloc::{AllocError, Global};

/// Adds a line of a word and fields.
pub fn add_line(text: &mut Vec<u8>, word: &[u8], fields: &[&[u8]]) -> Result<(), AllocError>
    ensures { OnOk result (text.new.items ≡ text.old.items ++ line (word.now ∷ map (λ (f : Bor (List ℕ)). f.now) fields.now)) }
{
    text.extend_from_slice(word)?;
    for field in fields {
        text.push(b' ')?;
        text.extend_from_slice(field)?;
    }
    text.push(b'\n')?;
    Ok(())
}

/// Adds the lines of what was found.
pub fn add_found(
    alloc: Global,
    text: &mut Vec<u8>,
    labels: &Labels,
    found: &Nearest,
) -> Result<(), AllocError>
    requires one_number_each { length found.now.flow ≡ length labels.now.edges }
    requires one_level_each { length found.now.levels ≡ length labels.now.names }
    ensures { OnOk result (text.new.items ≡ text.old.items ++ found_text labels.now found.now.flow found.now.levels found.now.change) }
{
    let change = found.change;
    let digits = format!(in alloc; "{change}")?;
    add_line(text, b"change", &[digits.as_bytes()])?;
    add_flow(alloc, text, labels, found.flow.as_slice())?;
    add_levels(alloc, text, labels, found.levels.as_slice())
}

/// Adds a line for each edge.
fn add_flow(
    alloc: Global,
    text: &mut Vec<u8>,
    labels: &Labels,
    flow: &[u64],
) -> Result<(), AllocError>
    requires one_each { length flow.now ≡ length labels.now.edges }
    ensures { OnOk result (text.new.items ≡ text.old.items ++ flow_lines labels.now flow.now) }
{
    for e in 0..labels.edges().len() as u32 {
        add_flow_line(alloc, text, labels, e, flow[e as usize])?;
    }
    Ok(())
}

/// Adds the line of an edge.
fn add_flow_line(
    alloc: Global,
    text: &mut Vec<u8>,
    labels: &Labels,
    e: u32,
    units: u64,
) -> Result<(), AllocError>
    requires { e < length labels.now.edges }
    ensures { OnOk result (text.new.items ≡ text.old.items ++ flow_line labels.now e units) }
{
    let tail = labels.name(labels.tail(e));
    let head = labels.name(labels.head(e));
    let digits = format!(in alloc; "{units}")?;
    add_line(text, b"flow", &[tail, head, digits.as_bytes()])
}

/// Adds a line for each vertex whose level is other than 0.
fn add_levels(
    alloc: Global,
    text: &mut Vec<u8>,
    labels: &Labels,
    levels: &[i64],
) -> Result<(), AllocError>
    requires one_each { length levels.now ≡ length labels.now.names }
    ensures { OnOk result (text.new.items ≡ text.old.items ++ level_lines labels.now levels.now) }
{
    for v in 0..labels.vertices() as u32 {
        add_level_line(alloc, text, labels, v, levels[v as usize])?;
    }
    Ok(())
}

/// Adds the line of a vertex, if its level is other than 0.
fn add_level_line(
    alloc: Global,
    text: &mut Vec<u8>,
    labels: &Labels,
    v: u32,
    level: i64,
) -> Result<(), AllocError>
    requires { v < length labels.now.names }
    ensures { OnOk result (text.new.items ≡ text.old.items ++ level_line labels.now v level) }
{
    if level == 0 {
        return Ok(());
    }
    let number = format!(in alloc; "{level}")?;
    add_line(text, b"level", &[labels.name(v), number.as_bytes()])
}
