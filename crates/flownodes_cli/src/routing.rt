//! The worker that solves the block of a split graph, and tells its report and its routes at the end.
ghost use Rattle.std.specs.Prelude.{◌≡◌, ◌∷◌, ◌++◌, [], IfOk, IsTrue, OnOk, OnErr};
ghost use Rattle.flow_io.specs.Outside.{Adds, HasCause};
ghost use Rattle.report_reading.specs.ReportText.{is_regular, text_of};
ghost use Rattle.flownodes_cli.specs.Answering.{AddsBeginning};
ghost use Rattle.flownodes_cli.specs.RouteText.{routes_text};
ghost use Rattle.flownodes_cli.specs.RightTexts.{paths_in};
ghost use Rattle.flownodes_cli.specs.Routing.{HasTold, IsToldWith, model_stays};
ghost use Rattle.flowpaths_cli.specs.Right.{status_of};

use crate::lines::routes_text;
use block_runs::{Stop, Worker};
use dag_net::{Answer, Mode};
use flow_io::{Fault, Output, Status, write_whole};
use flowpaths_cli::{Settings, solve_body};
use graph_text::{Block, Labels};
use node_weights::NodeGraph;
use path_report::write_report;
use report_terms::{Body, Mark, Report};
use std::alloc::{AllocError, Global};

/// A report, and the labels for its text.
#[derive(Drop)]
pub struct Told {
    pub report: Report,
    pub labels: Labels,
}

impl Told {
    /// The lines of the routes of the report's paths, and the last line.
    fn routes(&self, alloc: Global, graph: &NodeGraph) -> Result<Vec<u8>, AllocError>
        ensures { IfOk result (λ text. text.items ≡ routes_text graph.now (paths_in self.now.report.body)) }
    {
        match &self.report.body {
            Body::Solved(solved) => routes_text(alloc, graph, &solved.paths),
            Body::Refused(_) => routes_text(alloc, graph, &Answer::new(alloc)),
        }
    }

    /// Writes the report and the lines behind it. After a fault a beginning of them was added.
    fn write<O: Output>(&self, out: &mut O, routes: &[u8]) -> Result<(), Fault>
        requires { IsTrue (is_regular self.now.labels self.now.report) }
        ensures ok { OnOk result (Adds (O.written out.old) (O.written out.new)
            (text_of self.now.labels self.now.report ++ routes.now)) }
        ensures err { OnErr result (AddsBeginning (O.written out.old) (O.written out.new)
            (text_of self.now.labels self.now.report ++ routes.now)) }
        ensures cause { HasCause (O.faults out.old) (O.faults out.new) result }
    {
        write_report(out, &self.report, &self.labels)?;
        write_whole(out, routes)
    }

    /// The status of a run with this report alone.
    fn status(&self) -> Status
        ensures { result ≡ status_of (self.now.report ∷ []) }
    {
        match &self.report.body {
            Body::Refused(_) => Status::Refused,
            Body::Solved(solved) => match solved.mark {
                Mark::Bounds => Status::Partial,
                Mark::Optimal | Mark::Infeasible => Status::Clean,
            },
        }
    }
}

/// Solves the block of a split graph. Nothing is written before the end.
#[derive(Drop)]
pub struct Routing<'a> {
    pub settings: &'a Settings,
    pub graph: &'a NodeGraph,
    pub told: Option<Told>,
}

impl<'a> Worker for Routing<'a> {
    ghost model = { λ w. w.settings.now.mode };

    ghost is_right = { λ _ _ text. text ≡ [] };

    ghost may_be_cut = { λ _. ⊥ };

    ghost is_whole = { λ w status shown text. IsToldWith w.graph.now status shown text };

    ghost comes = { λ first now shown text. HasTold first now shown text };

    fn mode(&self) -> Mode {
        self.settings.mode
    }

    fn answer<O: Output>(&mut self, alloc: Global, block: Block, _out: &mut O) -> Result<(), Stop> {
        let Block {
            index,
            line: _,
            name,
            body,
        } = block;
        let (body, labels) = solve_body(alloc, self.settings, body)?;
        let report = Report {
            index,
            name,
            mode: self.settings.mode,
            body,
        };
        self.told = Some(Told { report, labels });
        Ok(())
    }

    /// Writes the report, a line for each route, and the last line.
    fn end<O: Output>(&mut self, alloc: Global, out: &mut O) -> Result<Status, Stop> {
        let Some(told) = &self.told else {
            return Ok(Status::Clean);
        };
        let routes = told.routes(alloc, self.graph)?;
        told.write(out, &routes)?;
        Ok(told.status())
    }

    ghost right = { λ first now shown text h. h.nothing };

    ghost stays = { λ first now shown text h. model_stays first now shown text h };
}
