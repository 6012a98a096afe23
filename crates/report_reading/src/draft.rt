//! A report that is being read.
ghost use Rattle.std.specs.Prelude.{◌≡◌};
ghost use Rattle.report_reading.specs.BadLines.{empty_draft, drafted_body, drafted};

use dag_net::{Answer, Mode};
use flow_io::Bytes;
use report_terms::{Body, Cert, Mark, Refusal, Report, Solved};
use std::alloc::Global;

/// What the next line of a text is to be. In a list it is the first of so many lines, one or more.
#[derive(Clone, Copy, Debug, PartialEq, Eq)]
pub(crate) enum Place {
    /// The number and the name of the block.
    Graph,
    /// The model.
    Model,
    /// A refusal, or the mark.
    Third,
    /// The lower bound.
    Lower,
    /// The upper bound.
    Upper,
    /// A path, or the certificate.
    PathOrCert,
    /// An item of the certificate.
    Item(u64),
    /// The trail.
    TrailHead,
    /// A token of the trail.
    TrailToken(u64),
    /// The number of safe runs, or the end.
    SafeOrEnd,
    /// A safe run.
    Run(u64),
    /// The end.
    End,
    /// Nothing: the text is at its end.
    Nothing,
}

/// What the lines so far say, and the place of the next one.
#[derive(Debug, Drop)]
pub(crate) struct Draft {
    pub place: Place,
    pub index: u64,
    pub name: Bytes,
    pub mode: Mode,
    pub refusal: Option<Refusal>,
    pub solved: Solved,
}

/// The refusal, or what was found where there is none.
fn drafted_body(refusal: Option<Refusal>, solved: Solved) -> Body
    ensures { result ≡ drafted_body refusal solved }
{
    match refusal {
        None => Body::Solved(solved),
        Some(refusal) => Body::Refused(refusal),
    }
}

impl Draft {
    /// Nothing so far.
    pub(crate) fn new(alloc: Global) -> Draft
        ensures { result ≡ empty_draft }
    {
        let solved = Solved {
            mark: Mark::Optimal,
            lower: None,
            upper: None,
            paths: Answer::new(alloc),
            cert: Cert::Zero,
            trail: None,
            safe: None,
        };
        Draft {
            place: Place::Graph,
            index: 0,
            name: Bytes::from_vec(Vec::new(alloc)),
            mode: Mode::Exact,
            refusal: None,
            solved,
        }
    }

    /// The report that was drafted.
    pub(crate) fn report(self) -> Report
        ensures { result ≡ drafted self }
    {
        let body = drafted_body(self.refusal, self.solved);
        Report {
            index: self.index,
            name: self.name,
            mode: self.mode,
            body,
        }
    }
}
