//! Laws on runs that lie on one path: each function has an empty body, and its contract is the law.

ghost use Rattle.subpath_rules.specs.Laws.{MayContainByReach, RunsShareByReach};

/// What a walk may contain is told by what its end reaches.
pub fn may_contain_by_reach()
    ensures { MayContainByReach }
{}

/// Two runs lie on one path where the one follows on the other.
pub fn runs_share_by_reach()
    ensures { RunsShareByReach }
{}
