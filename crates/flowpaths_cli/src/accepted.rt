//! Right reports are accepted by a check of their certificates: each function has an empty body, and its contract is the
//! law.
ghost use Rattle.flowpaths_cli.specs.AcceptedReports.{RightReportsAreAccepted, SolvedReportsAreAccepted};

/// A right report on a graph is accepted.
pub fn right_reports_are_accepted()
    ensures { RightReportsAreAccepted }
{}

/// What is right for a problem, put in a report with the model of the settings, is accepted.
pub fn solved_reports_are_accepted()
    ensures { SolvedReportsAreAccepted }
{}
