//! What a reader of graphs makes of the text of a split graph.
ghost use Rattle.node_weights.specs.SplitLaws.{SplitTextsAreOneBlock, SplitBlocksAreRead, SplitBlocksAreInstances};

/// The text is one block, and the interval model reads it as the split graph, or refuses the first line that is too long.
pub fn split_texts_are_read()
    ensures one_block { SplitTextsAreOneBlock }
    ensures graph { SplitBlocksAreRead }
    ensures instance { SplitBlocksAreInstances }
{}
