//! The words of the command line, as the host gives them.
ghost use Rattle.std.specs.Prelude.{◌≡◌, ◌⊎◌, IfErr};

use flow_io::Status;
use std::alloc::{Alloc, Global};
use std::env::{self, FillError};
use std::io::ErrorKind;
use std::rt::Env;

/// A host whose words begin behind the program's own name, so that the name is never read as a text.
#[derive(Drop)]
struct BehindName<'a, R> {
    rt: &'a R,
}

impl<'a, R: Env> Env for BehindName<'a, R> {
    fn arg(&self, i: usize, buf: &mut [u8]) -> Result<usize, FillError> {
        self.rt.arg(i.saturating_add(1), buf)
    }

    fn var(&self, name: &str, buf: &mut [u8]) -> Result<usize, FillError> {
        self.rt.var(name, buf)
    }

    fn var_at(&self, i: usize, buf: &mut [u8]) -> Result<usize, FillError> {
        self.rt.var_at(i, buf)
    }
}

impl<'a, R: Alloc<A = Global>> Alloc for BehindName<'a, R> {
    type A = Global;

    fn alloc(&self) -> Global {
        self.rt.alloc()
    }
}

/// The words after the program's own name. A word that is no text is a wrong word.
pub fn words_after_name<R: Env + Alloc<A = Global>>(rt: &R) -> Result<Vec<String>, Status>
    ensures { IfErr result (λ status. (status ≡ Status.Words) ⊎ (status ≡ Status.Memory)) }
{
    match env::args(&BehindName { rt }) {
        Ok(words) => match words.collect(rt.alloc()) {
            Ok(words) => Ok(words),
            Err(_) => Err(Status::Memory),
        },
        Err(error) => match error.kind() {
            ErrorKind::OutOfMemory => Err(Status::Memory),
            _ => Err(Status::Words),
        },
    }
}
