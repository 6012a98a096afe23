//! The vertices of the generated graphs.
ghost use Rattle.std.specs.Prelude.{◌≡◌, decimal};
ghost use Rattle.std.specs.Str.{bytes_eq};
ghost use Rattle.demo_text.specs.Demo.{name_of};

use std::fmt;

/// A vertex of a generated graph.
#[derive(Clone, Copy)]
pub enum Vertex {
    Source,
    First(u32),
    Second(u32),
    Sink,
}

impl Vertex {
    /// Whether two vertices have the same name.
    pub fn is(self, other: Vertex) -> bool
        ensures { result ≡ bytes_eq (name_of self) (name_of other) }
    {
        match (self, other) {
            (Vertex::Source, Vertex::Source) | (Vertex::Sink, Vertex::Sink) => true,
            (Vertex::First(i), Vertex::First(j)) => have_same_digits(i, j),
            (Vertex::Second(i), Vertex::Second(j)) => have_same_digits(i, j),
            _ => false,
        }
    }
}

impl fmt::Display for Vertex {
    ghost use Rattle.std.specs.Prelude.{Some};
    ghost use Rattle.demo_text.specs.Demo.{name_of};

    ghost output = { λ vertex. Some (name_of vertex) };

    fn fmt<W: fmt::Write>(&self, f: &mut fmt::Formatter<W>) -> fmt::Result {
        match self {
            Vertex::Source => write!(f, "s"),
            Vertex::First(i) => write!(f, "a{i}"),
            Vertex::Second(j) => write!(f, "b{j}"),
            Vertex::Sink => write!(f, "t"),
        }
    }
}

/// Whether two numbers have the same digits: they are equal.
fn have_same_digits(i: u32, j: u32) -> bool
    ensures { result ≡ bytes_eq (decimal i) (decimal j) }
{
    i == j
}
