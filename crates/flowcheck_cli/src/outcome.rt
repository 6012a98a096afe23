//! What the text of a report is answered.
ghost use Rattle.std.specs.Prelude.{◌≡◌, List, [], ◌∷◌, ◌++◌};
ghost use Rattle.flowcheck_cli.specs.declared.outcome.Outcome.{Outcome as AnOutcome};
ghost use Rattle.flowcheck_cli.specs.CheckLines.{status_of};

use flow_io::Status;
use report_reading::ReadWhy;

/// The answer for one block. Lines are counted from 1 over the whole text of reports.
#[derive(Clone, Copy, Debug, PartialEq, Eq)]
pub enum Outcome {
    /// The report is right.
    Yes,
    /// This line of the report is the first that is wrong.
    No { line: u64 },
    /// The text is that of no report: this line is the first bad one.
    Unread { line: u64, why: ReadWhy },
}

/// The status of the outcomes so far and of one more.
pub fn status_after(status: Status, outcome: Outcome) -> Status
    ensures { (outcomes : List AnOutcome) → status ≡ status_of outcomes → result ≡ status_of (outcomes ++ outcome ∷ []) }
{
    match (status, outcome) {
        (_, Outcome::Unread { .. }) => Status::Refused,
        (Status::Clean, Outcome::No { .. }) => Status::Partial,
        _ => status,
    }
}
