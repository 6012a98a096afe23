//! What right reports are answered: each function has an empty body, and its contract is the law.
ghost use Rattle.flowcheck_cli.specs.RightReports.{RightReportsAreAnsweredYes, RightReportsAreClean};

/// Reports that are right for the blocks of a graph text are answered by a line `yes` for each block, and by no other
/// line.
pub fn right_reports_are_answered_yes()
    ensures { RightReportsAreAnsweredYes }
{}

/// The status of these answers is clean.
pub fn right_reports_are_clean()
    ensures { RightReportsAreClean }
{}
