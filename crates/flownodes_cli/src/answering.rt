//! What a text is answered.
ghost use Rattle.std.specs.Prelude.{◌≡◌, false};
ghost use Rattle.flow_io.specs.Outside.{Rose};
ghost use Rattle.program_runs.specs.Inputs.{IsDone};
ghost use Rattle.flownodes_cli.specs.Answering.{Answered, Told};
ghost use Rattle.flownodes_cli.specs.RouteText.{refused_line};
ghost use Rattle.flownodes_cli.specs.RightTexts.{split_settings, IsOutput, IsAnswerTo};
ghost use Rattle.node_weights.specs.SplitText.{split_text};

use crate::lines::refusal_text;
use crate::routing::Routing;
use block_runs::run_text;
use dag_net::Mode;
use flow_io::{Output, Status, Word, write_whole};
use flowpaths_cli::Settings;
use node_weights::{NodeFault, NodeGraph, NodeWhy, read_nodes, split_text};
use std::alloc::Global;

/// Writes the answer to a text that is whole: the line of its refusal, the text of its split graph, or its report with its routes.
pub fn answer<O: Output>(alloc: Global, split: bool, text: &[u8], out: &mut O) -> Status
    ensures written { Answered (IsOutput split text.now) result (O.written out.old) (O.written out.new) }
    ensures fault { result ≡ Status.Fault → Rose (O.faults out.old) (O.faults out.new) }
{
    match read_nodes(alloc, text) {
        Ok(graph) => answer_graph(alloc, split, &graph, out),
        Err(NodeFault::Refused { line, why }) => write_refusal(alloc, line, why, out),
        Err(NodeFault::Memory) => Status::Memory,
    }
}

/// Writes the line of a refusal.
fn write_refusal<O: Output>(alloc: Global, line: u64, why: NodeWhy, out: &mut O) -> Status
    ensures written { Answered (Told (refused_line line why) Status.Refused) result (O.written out.old) (O.written out.new) }
    ensures fault { result ≡ Status.Fault → Rose (O.faults out.old) (O.faults out.new) }
{
    match refusal_text(alloc, line, why) {
        Ok(text) => write_all(text.as_slice(), Status::Refused, out),
        Err(_) => Status::Memory,
    }
}

/// Writes the text of the split graph, or its report with its routes.
fn answer_graph<O: Output>(alloc: Global, split: bool, graph: &NodeGraph, out: &mut O) -> Status
    ensures written { Answered (IsAnswerTo split graph.now) result (O.written out.old) (O.written out.new) }
    ensures fault { result ≡ Status.Fault → Rose (O.faults out.old) (O.faults out.new) }
{
    if split {
        write_split(alloc, graph, out)
    } else {
        write_routes(alloc, graph, out)
    }
}

/// Writes the text of the split graph.
fn write_split<O: Output>(alloc: Global, graph: &NodeGraph, out: &mut O) -> Status
    ensures written { Answered (Told (split_text graph.now) Status.Clean) result (O.written out.old) (O.written out.new) }
    ensures fault { result ≡ Status.Fault → Rose (O.faults out.old) (O.faults out.new) }
{
    match split_text(alloc, graph) {
        Ok(text) => write_all(text.as_slice(), Status::Clean, out),
        Err(_) => Status::Memory,
    }
}

/// Writes a text, and answers the status, or `Fault`.
fn write_all<O: Output>(text: &[u8], status: Status, out: &mut O) -> Status
    requires { IsDone status }
    ensures written { Answered (Told text.now status) result (O.written out.old) (O.written out.new) }
    ensures fault { result ≡ Status.Fault → Rose (O.faults out.old) (O.faults out.new) }
{
    match write_whole(out, text) {
        Ok(()) => status,
        Err(_) => Status::Fault,
    }
}

/// Solves the split graph, and writes its report with the routes.
fn write_routes<O: Output>(alloc: Global, graph: &NodeGraph, out: &mut O) -> Status
    ensures written { Answered (IsAnswerTo false graph.now) result (O.written out.old) (O.written out.new) }
    ensures fault { result ≡ Status.Fault → Rose (O.faults out.old) (O.faults out.new) }
{
    prove!(graph.len() <= 4096);
    let Ok(text) = split_text(alloc, graph) else {
        return Status::Memory;
    };
    let settings = settings(alloc);
    let mut routing = Routing {
        settings: &settings,
        graph,
        told: None,
    };
    run_text(alloc, &mut routing, text.as_slice(), out)
}

/// How the split graph is solved.
fn settings(alloc: Global) -> Settings
    ensures { result ≡ split_settings }
{
    Settings {
        mode: Mode::Interval,
        nodes: 20_000,
        safe: false,
        demo: None,
        file: Word::from_string(String::new(alloc)),
    }
}
