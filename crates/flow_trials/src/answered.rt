//! What one program writes is answered by the other: the function has an empty body, and its contract is the law.
ghost use Rattle.flow_trials.specs.Answered.{OutputsAreAnsweredYes};

/// Every output of `flowpaths` is answered by `flowcheck` by a line `yes` for each block, and by no other line.
pub fn outputs_are_answered_yes()
    ensures { OutputsAreAnsweredYes }
{}
