//! The lines of paths and of safe runs.
ghost use Rattle.std.specs.Prelude.{◌<◌, length, flat_map, Some, IsTrue};
ghost use Rattle.std.specs.List.{list_all};
ghost use Rattle.decomposition.specs.Graph.{is_run};
ghost use Rattle.graph_text.specs.Labels.{name_at, head_at};
ghost use Rattle.report_reading.specs.Names.{graph_at, names_along};
ghost use Rattle.report_reading.specs.ReportText.{path_line, run_line, safe_text, is_path_entry, are_runs, are_runs_or_none};
ghost use Rattle.path_report.specs.Sending.{PutsText, spaced};

use crate::digits::Digits;
use crate::page::Page;
use dag_net::{Answer, IdLists};
use flow_io::{Fault, Output};
use graph_text::Labels;

/// A line for each path.
pub fn put_paths<O: Output>(
    page: &mut Page,
    out: &mut O,
    paths: &Answer,
    labels: &Labels,
) -> Result<(), Fault>
    requires { IsTrue (list_all (is_path_entry labels.now) paths.now) }
    ensures { PutsText (flat_map (path_line labels.now) paths.now) O.written O.faults out.old out.new page.old page.new result }
{
    for k in 0..paths.len() {
        put_path(page, out, paths.path(k).as_slice(), paths.weight(k), labels)?;
    }
    Ok(())
}

/// The line of a path.
fn put_path<O: Output>(
    page: &mut Page,
    out: &mut O,
    path: &[u32],
    weight: u64,
    labels: &Labels,
) -> Result<(), Fault>
    requires { IsTrue (is_run (graph_at labels.now) path.now) }
    ensures { PutsText (path_line labels.now (path.now, weight)) O.written O.faults out.old out.new page.old page.new result }
{
    page.put(out, b"path")?;
    page.number(out, weight)?;
    put_names(page, out, path, labels)?;
    page.put(out, b"\n")
}

/// The number of safe runs, and a line for each, where they are there.
pub fn put_safe<O: Output>(
    page: &mut Page,
    out: &mut O,
    safe: &Option<IdLists>,
    labels: &Labels,
) -> Result<(), Fault>
    requires { IsTrue (are_runs_or_none labels.now safe.now) }
    ensures { PutsText (safe_text labels.now safe.now) O.written O.faults out.old out.new page.old page.new result }
{
    match safe {
        None => Ok(()),
        Some(runs) => put_runs(page, out, runs, labels),
    }
}

/// The number of runs, and a line for each.
fn put_runs<O: Output>(
    page: &mut Page,
    out: &mut O,
    runs: &IdLists,
    labels: &Labels,
) -> Result<(), Fault>
    requires { IsTrue (are_runs labels.now runs.now) }
    ensures { PutsText (safe_text labels.now (Some runs.now)) O.written O.faults out.old out.new page.old page.new result }
{
    let count = Digits::of(runs.len() as u64);
    page.line(out, b"safe", &[count.as_slice()])?;
    put_each_run(page, out, runs, labels)
}

/// A line for each run.
fn put_each_run<O: Output>(
    page: &mut Page,
    out: &mut O,
    runs: &IdLists,
    labels: &Labels,
) -> Result<(), Fault>
    requires { IsTrue (list_all (is_run (graph_at labels.now)) runs.now) }
    ensures { PutsText (flat_map (run_line labels.now) runs.now) O.written O.faults out.old out.new page.old page.new result }
{
    for k in 0..runs.len() {
        put_run(page, out, runs.get(k).as_slice(), labels)?;
    }
    Ok(())
}

/// The line of a run.
fn put_run<O: Output>(
    page: &mut Page,
    out: &mut O,
    run: &[u32],
    labels: &Labels,
) -> Result<(), Fault>
    requires { IsTrue (is_run (graph_at labels.now) run.now) }
    ensures { PutsText (run_line labels.now run.now) O.written O.faults out.old out.new page.old page.new result }
{
    page.put(out, b"run")?;
    put_names(page, out, run, labels)?;
    page.put(out, b"\n")
}

/// The names along a run, a space before each.
fn put_names<O: Output>(
    page: &mut Page,
    out: &mut O,
    run: &[u32],
    labels: &Labels,
) -> Result<(), Fault>
    requires { IsTrue (is_run (graph_at labels.now) run.now) }
    ensures { PutsText (flat_map spaced (names_along labels.now run.now)) O.written O.faults out.old out.new page.old page.new result }
{
    put_name(page, out, labels.tail(run[0]), labels)?;
    put_heads(page, out, run, labels)
}

/// The names of the vertices that the edges of a run enter, a space before each.
fn put_heads<O: Output>(
    page: &mut Page,
    out: &mut O,
    run: &[u32],
    labels: &Labels,
) -> Result<(), Fault>
    requires { IsTrue (is_run (graph_at labels.now) run.now) }
    ensures { PutsText (flat_map (λ e. spaced (name_at labels.now (head_at labels.now e))) run.now) O.written O.faults out.old out.new page.old page.new result }
{
    for e in run {
        put_name(page, out, labels.head(*e), labels)?;
    }
    Ok(())
}

/// A space and the name of a vertex.
fn put_name<O: Output>(page: &mut Page, out: &mut O, v: u32, labels: &Labels) -> Result<(), Fault>
    requires { v < length labels.now.names }
    ensures { PutsText (spaced (name_at labels.now v)) O.written O.faults out.old out.new page.old page.new result }
{
    page.field(out, labels.name(v))
}
