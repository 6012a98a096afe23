//! The lines of certificates.
ghost use Rattle.std.specs.Prelude.{◌<◌, length, flat_map, nat_lt, IsTrue};
ghost use Rattle.std.specs.List.{list_all};
ghost use Rattle.report_terms.specs.declared.report.Cert.TheVariants.{Wide, Cut, Crowd};
ghost use Rattle.report_reading.specs.ReportText.{edge_line, vertex_line, rule_line, cert_text, are_edges, are_vertices, is_cert};
ghost use Rattle.path_report.specs.Sending.{PutsText};

use crate::digits::Digits;
use crate::page::Page;
use crate::trails::{put_place, put_trail};
use decomposition::Side;
use flow_io::{Fault, Output};
use graph_text::Labels;
use report_reading::words::word_of_side;
use report_terms::Cert;

/// The line of a certificate, and those of its items.
pub fn put_cert<O: Output>(
    page: &mut Page,
    out: &mut O,
    cert: &Cert,
    labels: &Labels,
) -> Result<(), Fault>
    requires { IsTrue (is_cert labels.now cert.now) }
    ensures { PutsText (cert_text labels.now cert.now) O.written O.faults out.old out.new page.old page.new result }
{
    match cert {
        Cert::Zero => page.line(out, b"cert", &[b"none"]),
        Cert::Wide(edges) => put_wide(page, out, edges.as_slice(), labels),
        Cert::Tree(tree) => put_trail(page, out, b"cert tree", tree),
        Cert::Cut(side, vertices) => put_cut(page, out, *side, vertices.as_slice(), labels),
        Cert::Crowd(e, rules) => put_crowd(page, out, *e, rules.as_slice(), labels),
    }
}

/// The number of edges, and a line for each.
fn put_wide<O: Output>(
    page: &mut Page,
    out: &mut O,
    edges: &[u32],
    labels: &Labels,
) -> Result<(), Fault>
    requires { IsTrue (are_edges labels.now edges.now) }
    ensures { PutsText (cert_text labels.now (Wide edges.now)) O.written O.faults out.old out.new page.old page.new result }
{
    let count = Digits::of(edges.len() as u64);
    page.line(out, b"cert", &[b"wide", count.as_slice()])?;
    put_edges(page, out, edges, labels)
}

/// A line for each edge.
fn put_edges<O: Output>(
    page: &mut Page,
    out: &mut O,
    edges: &[u32],
    labels: &Labels,
) -> Result<(), Fault>
    requires { IsTrue (list_all (λ e. nat_lt e (length labels.now.edges)) edges.now) }
    ensures { PutsText (flat_map (edge_line labels.now) edges.now) O.written O.faults out.old out.new page.old page.new result }
{
    for e in edges {
        put_edge(page, out, *e, labels)?;
    }
    Ok(())
}

/// The line of an edge.
fn put_edge<O: Output>(page: &mut Page, out: &mut O, e: u32, labels: &Labels) -> Result<(), Fault>
    requires { e < length labels.now.edges }
    ensures { PutsText (edge_line labels.now e) O.written O.faults out.old out.new page.old page.new result }
{
    let tail = labels.name(labels.tail(e));
    let head = labels.name(labels.head(e));
    page.line(out, b"edge", &[tail, head])
}

/// The side of a cut and the number of its vertices, and a line for each.
fn put_cut<O: Output>(
    page: &mut Page,
    out: &mut O,
    side: Side,
    vertices: &[u32],
    labels: &Labels,
) -> Result<(), Fault>
    requires { IsTrue (are_vertices labels.now vertices.now) }
    ensures { PutsText (cert_text labels.now (Cut side vertices.now)) O.written O.faults out.old out.new page.old page.new result }
{
    let count = Digits::of(vertices.len() as u64);
    page.line(
        out,
        b"cert",
        &[b"cut", word_of_side(side), count.as_slice()],
    )?;
    put_vertices(page, out, vertices, labels)
}

/// A line for each vertex.
fn put_vertices<O: Output>(
    page: &mut Page,
    out: &mut O,
    vertices: &[u32],
    labels: &Labels,
) -> Result<(), Fault>
    requires { IsTrue (list_all (λ v. nat_lt v (length labels.now.names)) vertices.now) }
    ensures { PutsText (flat_map (vertex_line labels.now) vertices.now) O.written O.faults out.old out.new page.old page.new result }
{
    for v in vertices {
        page.line(out, b"vertex", &[labels.name(*v)])?;
    }
    Ok(())
}

/// The edge of a crowd and the number of its rules, and a line for each.
fn put_crowd<O: Output>(
    page: &mut Page,
    out: &mut O,
    e: u32,
    rules: &[u32],
    labels: &Labels,
) -> Result<(), Fault>
    requires { e < length labels.now.edges }
    ensures { PutsText (cert_text labels.now (Crowd e rules.now)) O.written O.faults out.old out.new page.old page.new result }
{
    let tail = labels.name(labels.tail(e));
    let head = labels.name(labels.head(e));
    let count = Digits::of(rules.len() as u64);
    page.line(out, b"cert", &[b"crowd", tail, head, count.as_slice()])?;
    put_rules(page, out, rules)
}

/// A line for each rule.
fn put_rules<O: Output>(page: &mut Page, out: &mut O, rules: &[u32]) -> Result<(), Fault>
    ensures { PutsText (flat_map rule_line rules.now) O.written O.faults out.old out.new page.old page.new result }
{
    for c in rules {
        put_place(page, out, b"rule", *c)?;
    }
    Ok(())
}
