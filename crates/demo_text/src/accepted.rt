//! A law of the generated text.
ghost use Rattle.demo_text.specs.Accepted.{BlocksAreAccepted};

/// The text of each seed has forty blocks, and each is read as a graph of the exact model without runs to be covered.
pub fn blocks_are_accepted()
    ensures { BlocksAreAccepted }
{}
