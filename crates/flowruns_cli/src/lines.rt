//! The lines that tell a run and the paths of a decomposition.
ghost use Rattle.std.specs.Prelude.{◌≡◌, ◌++◌, flat_map, All, OnOk};
ghost use Rattle.decomposition.specs.Graph.{IsRun};
ghost use Rattle.report_reading.specs.Names.{graph_at, names_along};
ghost use Rattle.text_lines.specs.TextLines.{spaced};
ghost use Rattle.flowruns_cli.specs.RunText.{weighted_line, path_lines};

use dag_net::Answer;
use graph_text::Labels;
use std::alloc::{AllocError, Global};
use text_lines::add_field;

/// Adds a line of a word, a number, and the names along a run.
pub fn add_weighted(
    alloc: Global,
    text: &mut Vec<u8>,
    word: &[u8],
    number: u64,
    labels: &Labels,
    run: &[u32],
) -> Result<(), AllocError>
    requires run { IsRun (graph_at labels.now) run.now }
    ensures { OnOk result (text.new.items ≡ text.old.items ++ weighted_line labels.now word.now number run.now) }
{
    let digits = format!(in alloc; "{number}")?;
    text.extend_from_slice(word)?;
    add_field(text, digits.as_bytes())?;
    add_names(text, labels, run)?;
    text.push(b'\n')?;
    Ok(())
}

/// Adds the names along a run, a space before each.
fn add_names(text: &mut Vec<u8>, labels: &Labels, run: &[u32]) -> Result<(), AllocError>
    requires run { IsRun (graph_at labels.now) run.now }
    ensures { OnOk result (text.new.items ≡ text.old.items ++ flat_map spaced (names_along labels.now run.now)) }
{
    add_field(text, labels.name(labels.tail(run[0])))?;
    for e in run {
        add_field(text, labels.name(labels.head(*e)))?;
    }
    Ok(())
}

/// Adds a line for each path.
pub fn add_paths(
    alloc: Global,
    text: &mut Vec<u8>,
    labels: &Labels,
    shown: &Answer,
) -> Result<(), AllocError>
    requires runs { All (λ entry. IsRun (graph_at labels.now) entry.0) shown.now }
    ensures { OnOk result (text.new.items ≡ text.old.items ++ path_lines labels.now shown.now) }
{
    for k in 0..shown.len() {
        let path = shown.path(k).as_slice();
        add_weighted(alloc, text, b"path", shown.weight(k), labels, path)?;
    }
    Ok(())
}
