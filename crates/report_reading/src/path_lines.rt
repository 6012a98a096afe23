//! The lines of paths and of safe runs.
ghost use Rattle.std.specs.Prelude.{◌≡◌, Ok, IfOk, IfErr};
ghost use Rattle.report_reading.specs.LineFields.{texts};
ghost use Rattle.report_reading.specs.LineSteps.{FaultsAs};
ghost use Rattle.report_reading.specs.ListSteps.{path_after, run_after};

use crate::fields::{field_at, fields_from, has_words_and_more};
use crate::names::edges_in;
use crate::numbers::number_in;
use crate::order::{path_may_follow, run_may_follow};
use crate::read_fault::LineFault::{self, Bad};
use crate::read_fault::ReadWhy::{BadForm, BadName, BadNumber, BadOrder};
use dag_net::{Answer, IdLists, Ids};
use graph_text::Labels;
use std::alloc::Global;

/// A path and its weight, after the paths before it.
pub(crate) fn path_after(
    alloc: Global,
    labels: &Labels,
    paths: &Answer,
    fields: &[&[u8]],
) -> Result<(Ids, u64), LineFault>
    ensures ok { IfOk result (λ entry. path_after labels.now paths.now (texts fields.now) ≡ Ok entry) }
    ensures err { IfErr result (FaultsAs (path_after labels.now paths.now (texts fields.now))) }
{
    let weight = number_in(1, u64::MAX, field_at(fields, 1)).ok_or(Bad(BadNumber))?;
    let edges = edges_in(alloc, labels, fields_from(fields, 2))?;
    let path = edges.ok_or(Bad(BadName))?;
    if !path_may_follow(paths, path.as_slice(), weight) {
        return Err(Bad(BadOrder));
    }
    Ok((path, weight))
}

/// A safe run, after the runs before it.
pub(crate) fn run_after(
    alloc: Global,
    labels: &Labels,
    runs: &IdLists,
    fields: &[&[u8]],
) -> Result<Ids, LineFault>
    ensures ok { IfOk result (λ run. run_after labels.now runs.now (texts fields.now) ≡ Ok run) }
    ensures err { IfErr result (FaultsAs (run_after labels.now runs.now (texts fields.now))) }
{
    if !has_words_and_more(fields, &[b"run"], 3) {
        return Err(Bad(BadForm));
    }
    let edges = edges_in(alloc, labels, fields_from(fields, 1))?;
    let run = edges.ok_or(Bad(BadName))?;
    if !run_may_follow(runs, run.as_slice()) {
        return Err(Bad(BadOrder));
    }
    Ok(run)
}
