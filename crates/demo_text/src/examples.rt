//! The text at a worked example, which the check computes.
ghost use Rattle.std.specs.Prelude.{◌≡◌, codes};
ghost use Rattle.demo_text.specs.Demo.{lines_from, text_of};

/// The first block that the seed 1 gives.
pub fn first_block_of_seed_1()
    ensures { text_of (lines_from 1 1 1) ≡ codes "# demo 1\n6\ns a1 32\na1 b0 16\nb0 t 23\na1 b2 16\nb2 t 16\ns a0 7\na0 b0 7\n" }
{}
