//! Bytes that are held back, so that they are written many at a time.
ghost use Rattle.std.specs.Prelude.{◌≡◌, ◌+◌, ◌≤◌, [], ◌∷◌, ◌++◌, length, map, flat_map, decimal, OnOk};
ghost use Rattle.report_reading.specs.ReportText.{line};
ghost use Rattle.path_report.specs.Sending.{PutsText, spaced};

use crate::digits::Digits;
use flow_io::{Fault, Output, write_whole};
use std::marker::Model;

/// The last bytes of a text, which are not written yet.
#[derive(Drop)]
pub struct Page {
    bytes: [u8; 4096],
    count: usize,
}

impl Model for Page {
    ghost use Rattle.std.specs.Prelude.{ℕ, ◌≤◌, List, take};

    ghost Value = { List ℕ };

    ghost view = { λ p. take p.count p.bytes };

    ghost invariant = { λ p. p.count ≤ 4096 };
}

impl Page {
    pub fn new() -> Page
        ensures { result ≡ [] }
    {
        Page {
            bytes: [0; 4096],
            count: 0,
        }
    }

    /// How many bytes more can be held.
    fn room(&self) -> usize
        ensures { result + length self.now ≡ 4096 }
    {
        4096 - self.count
    }

    /// Holds a piece.
    fn hold(&mut self, piece: &[u8])
        requires { length self.old + length piece.now ≤ 4096 }
        ensures { self.new ≡ self.old ++ piece.now }
    {
        let end = self.count + piece.len();
        self.bytes[self.count..end].copy_from_slice(piece);
        self.count = end;
    }

    /// Writes what is held.
    pub fn flush<O: Output>(&mut self, out: &mut O) -> Result<(), Fault>
        ensures text { PutsText [] O.written O.faults out.old out.new self.old self.new result }
        ensures empty { OnOk result (self.new ≡ []) }
    {
        write_whole(out, &self.bytes[..self.count])?;
        self.count = 0;
        Ok(())
    }

    /// Takes a piece where nothing is held.
    fn start<O: Output>(&mut self, out: &mut O, piece: &[u8]) -> Result<(), Fault>
        requires { self.old ≡ [] }
        ensures { PutsText piece.now O.written O.faults out.old out.new self.old self.new result }
    {
        if self.room() < piece.len() {
            return write_whole(out, piece);
        }
        self.hold(piece);
        Ok(())
    }

    /// Takes a piece.
    pub fn put<O: Output>(&mut self, out: &mut O, piece: &[u8]) -> Result<(), Fault>
        ensures { PutsText piece.now O.written O.faults out.old out.new self.old self.new result }
    {
        if self.room() < piece.len() {
            self.flush(out)?;
            return self.start(out, piece);
        }
        self.hold(piece);
        Ok(())
    }

    /// Takes a space and a field.
    pub fn field<O: Output>(&mut self, out: &mut O, field: &[u8]) -> Result<(), Fault>
        ensures { PutsText (spaced field.now) O.written O.faults out.old out.new self.old self.new result }
    {
        self.put(out, b" ")?;
        self.put(out, field)
    }

    /// Takes a space and the digits of a number.
    pub fn number<O: Output>(&mut self, out: &mut O, number: u64) -> Result<(), Fault>
        ensures { PutsText (spaced (decimal number)) O.written O.faults out.old out.new self.old self.new result }
    {
        let digits = Digits::of(number);
        self.field(out, digits.as_slice())
    }

    /// Takes fields, a space before each.
    fn fields<O: Output>(&mut self, out: &mut O, fields: &[&[u8]]) -> Result<(), Fault>
        ensures { PutsText (flat_map (λ f. spaced f.now) fields.now) O.written O.faults out.old out.new self.old self.new result }
    {
        for field in fields {
            self.field(out, field)?;
        }
        Ok(())
    }

    /// Takes a line of a word and fields.
    pub fn line<O: Output>(
        &mut self,
        out: &mut O,
        word: &[u8],
        fields: &[&[u8]],
    ) -> Result<(), Fault>
        ensures { PutsText (line (word.now ∷ map (λ f. f.now) fields.now)) O.written O.faults out.old out.new self.old self.new result }
    {
        self.put(out, word)?;
        self.fields(out, fields)?;
        self.put(out, b"\n")
    }
}
