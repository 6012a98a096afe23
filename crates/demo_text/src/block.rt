//! The text of a generated graph.
ghost use Rattle.std.specs.Prelude.{◌≡◌, ◌≤◌, ◌++◌, codes, length, OnOk, string_bytes};
ghost use Rattle.demo_text.specs.Demo.{ends_of, edge_line, block_lines, text_of};

use crate::edge::Edge;
use crate::edges::{count_vertices, edges_used, weight_on};
use crate::path::DemoPath;
use std::alloc::{AllocError, Global};

/// Writes the line of an edge.
fn write_edge(text: &mut String, paths: &[DemoPath], edge: Edge) -> Result<(), AllocError>
    requires { length paths.now ≤ 5 }
    ensures { OnOk result (string_bytes text.new ≡ string_bytes text.old ++ (edge_line paths.now (ends_of edge) ++ codes "\n")) }
{
    let tail = edge.tail;
    let head = edge.head;
    let weight = weight_on(paths, edge);
    writeln!(text, "{tail} {head} {weight}")
}

/// Writes the block of this number, whose graph these paths make up.
pub fn write_block(
    alloc: Global,
    text: &mut String,
    index: u32,
    paths: &[DemoPath],
) -> Result<(), AllocError>
    requires { length paths.now ≤ 5 }
    ensures { OnOk result (string_bytes text.new ≡ string_bytes text.old ++ text_of (block_lines index paths.now)) }
{
    let used = edges_used(alloc, paths)?;
    let vertices = count_vertices(alloc, used.as_slice())?;
    write!(text, "# demo {index}\n{vertices}\n")?;
    for edge in &used {
        write_edge(text, paths, *edge)?;
    }
    Ok(())
}
