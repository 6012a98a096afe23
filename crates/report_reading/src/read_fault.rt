//! Why a text is no report.
ghost use Rattle.std.specs.Prelude.{◌≡◌};

use std::alloc::AllocError;
use thiserror::Error;

/// What is wrong with a line, in the order in which the causes count on one line.
#[derive(Clone, Copy, Debug, PartialEq, Eq)]
pub enum ReadWhy {
    /// The words, the number of fields or the spacing are not those of a line that may stand here.
    BadForm,
    /// A number is not spelled as in a report, or is out of its range.
    BadNumber,
    /// A name is no vertex, or two neighbours are no edge.
    BadName,
    /// The line is not after the one before it.
    BadOrder,
    /// The text ends before its line `end`.
    NoEnd,
}

/// The first bad line of a text, counted from 1, and why it is bad.
#[derive(Clone, Copy, Debug, PartialEq, Eq)]
pub struct ReadRefusal {
    pub line: u64,
    pub why: ReadWhy,
}

/// Why there is no report.
#[derive(Debug, Drop, Error)]
pub enum ReadFault {
    /// The text is that of no report.
    #[error("line {} is that of no report", .0.line)]
    Refused(ReadRefusal),
    /// There was too little memory.
    #[error("out of memory")]
    Memory,
}

/// Why a line was not taken.
#[derive(Debug, Drop)]
pub(crate) enum LineFault {
    /// The line is bad.
    Bad(ReadWhy),
    /// There was too little memory.
    Memory,
}

impl From<AllocError> for LineFault {
    ghost use Rattle.std.specs.Prelude.{◌≡◌};
    ghost use Rattle.report_reading.specs.declared.read_fault.LineFault.TheVariants.{Memory};

    ghost from_gives = { λ _ fault. fault ≡ Memory };

    fn from(_error: AllocError) -> Self {
        LineFault::Memory
    }
}
