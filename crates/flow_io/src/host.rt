//! Files, standard input, standard output and standard error. Nothing is told of their bytes.
ghost use Rattle.std.specs.Prelude.{◌≡◌, None};

use crate::outside::{Fault, Inputs, Output};
use std::fs::File;
use std::io::{Read, Write};
use std::rt::Files;

/// Where the selected bytes come from.
#[derive(Drop)]
enum Source<R, F> {
    Nothing,
    Standard(R),
    Opened(F),
}

/// Files by their names, and standard input by the name `-`.
#[derive(Drop)]
pub struct HostInputs<'a, R: Files + Input> {
    rt: &'a R,
    source: Source<R::Reader, R::File>,
    faults: u64,
}

impl<'a, R: Files + Input> HostInputs<'a, R> {
    /// No input is selected.
    pub fn new(rt: &'a R) -> HostInputs<'a, R>
        ensures { ⟦<HostInputs<'a, R> as Inputs>⟧.faults result ≡ 0 }
    {
        HostInputs {
            rt,
            source: Source::Nothing,
            faults: 0,
        }
    }
}

impl<'a, R: Files + Input> Inputs for HostInputs<'a, R> {
    ghost may_ask = { λ _ _. Unit {0} };

    ghost holds = { λ _ _. None };

    ghost selected = { λ _. None };

    ghost faults = { λ s. s.faults };

    fn select(&mut self, name: &str) -> Result<(), Fault> {
        self.source = Source::Nothing;
        if name == "-" {
            self.source = Source::Standard(self.rt.reader());
            return Ok(());
        }
        match File::open(self.rt, name) {
            Ok(file) => {
                self.source = Source::Opened(file);
                Ok(())
            }
            Err(_) => {
                self.faults = self.faults.saturating_add(1);
                Err(Fault)
            }
        }
    }

    fn read(&mut self, into: &mut [u8]) -> Result<usize, Fault> {
        let outcome = match &mut self.source {
            Source::Nothing => Ok(0),
            Source::Standard(reader) => reader.read(into),
            Source::Opened(file) => file.read(into),
        };
        match outcome {
            Ok(count) => Ok(count),
            Err(_) => {
                self.faults = self.faults.saturating_add(1);
                Err(Fault)
            }
        }
    }
}

/// What is written goes to the writer at once: give it `rt.stdout()` or `rt.stderr()`, which keep nothing back.
#[derive(Drop)]
pub struct HostOutput<W: Write + Drop> {
    writer: W,
    faults: u64,
}

impl<W: Write + Drop> HostOutput<W> {
    pub fn new(writer: W) -> HostOutput<W>
        ensures { ⟦<HostOutput<W> as Output>⟧.faults result ≡ 0 }
    {
        HostOutput { writer, faults: 0 }
    }
}

impl<W: Write + Drop> Output for HostOutput<W> {
    ghost written = { λ _. None };

    ghost faults = { λ s. s.faults };

    fn write(&mut self, piece: &[u8]) -> Result<usize, Fault> {
        match self.writer.write(piece) {
            Ok(count) if count > 0 || piece.is_empty() => Ok(count),
            _ => {
                self.faults = self.faults.saturating_add(1);
                Err(Fault)
            }
        }
    }
}
