//! Laws of reading: each function has an empty body, and its contract is the law.
ghost use Rattle.graph_text.specs.Accepted.{GraphsAreAccepted, BlocksHaveWholeLines};

/// Every graph that a block is read as is a valid instance of its model, with labels that fit it.
pub fn graphs_are_accepted()
    ensures { GraphsAreAccepted }
{}

/// No line of a block of an input has a line feed in it.
pub fn blocks_have_whole_lines()
    ensures { BlocksHaveWholeLines }
{}
