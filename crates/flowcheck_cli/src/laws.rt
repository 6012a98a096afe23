//! Laws of what is answered: each function has an empty body, and its contract is the law.
ghost use Rattle.flowcheck_cli.specs.YesIsTrue.{YesIsTrue};

/// A yes for a block that is read as a graph shows that the report is true.
pub fn yes_is_true()
    ensures { YesIsTrue }
{}
