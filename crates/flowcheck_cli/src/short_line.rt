//! A line of a few fields, which takes no memory.
ghost use Rattle.std.specs.Prelude.{◌≡◌, ◌≤◌, ◌+◌, ◌∷◌, [], ◌++◌, length, decimal};
ghost use Rattle.path_report.specs.Sending.{spaced};

use path_report::Digits;
use std::marker::Model;

/// The bytes of a line so far.
#[derive(Drop)]
pub struct ShortLine {
    bytes: [u8; 96],
    count: usize,
}

impl Model for ShortLine {
    ghost use Rattle.std.specs.Prelude.{ℕ, ◌≤◌, List, take};

    ghost Value = { List ℕ };

    ghost view = { λ l. take l.count l.bytes };

    ghost invariant = { λ l. l.count ≤ 96 };
}

impl ShortLine {
    /// A line that begins with this word.
    pub fn of(word: &[u8]) -> ShortLine
        requires { length word.now ≤ 96 }
        ensures { result ≡ word.now }
    {
        let mut line = ShortLine {
            bytes: [0; 96],
            count: 0,
        };
        line.put(word);
        line
    }

    /// Takes a piece.
    fn put(&mut self, piece: &[u8])
        requires { length self.old + length piece.now ≤ 96 }
        ensures { self.new ≡ self.old ++ piece.now }
    {
        let end = self.count + piece.len();
        self.bytes[self.count..end].copy_from_slice(piece);
        self.count = end;
    }

    /// Takes a space and a field.
    pub fn field(&mut self, field: &[u8])
        requires { length self.old + length field.now ≤ 95 }
        ensures bytes { self.new ≡ self.old ++ spaced field.now }
        ensures long { length self.new ≡ length self.old + length field.now + 1 }
    {
        self.put(b" ");
        self.put(field);
    }

    /// Takes a space and the digits of a number.
    pub fn number(&mut self, number: u64)
        requires { length self.old ≤ 75 }
        ensures bytes { self.new ≡ self.old ++ spaced (decimal number) }
        ensures long { length self.new ≤ length self.old + 21 }
    {
        self.field(Digits::of(number).as_slice());
    }

    /// Ends the line.
    pub fn end(&mut self)
        requires { length self.old ≤ 95 }
        ensures { self.new ≡ self.old ++ 10 ∷ [] }
    {
        self.put(b"\n");
    }

    pub fn as_slice(&self) -> &[u8]
        ensures { result.now ≡ self.now }
    {
        &self.bytes[..self.count]
    }
}
