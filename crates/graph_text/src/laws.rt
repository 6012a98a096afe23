//! Laws of the definitions of blocks, over all texts.
ghost use Rattle.std.specs.Prelude.{◌≡◌, ◌≤◌, ◌<◌, ◌+◌, [], ◌∷◌, ◌++◌, List, ℕ, length, IfErr};
ghost use Rattle.decomposition.specs.declared.Mode.{Mode};
ghost use Rattle.graph_text.specs.Blocks.{TextBlock, IsTextBlock, blocks, complete};
ghost use Rattle.graph_text.specs.Reading.{read};

/// What is complete stays complete however a text goes on, and begins the blocks of the text.
pub fn complete_blocks_stay()
    ensures grow { (bytes more : List ℕ) → (rest : List TextBlock) × (complete (bytes ++ more) ≡ complete bytes ++ rest) }
    ensures begin { (bytes : List ℕ) → (rest : List TextBlock) × (blocks bytes ≡ complete bytes ++ rest) }
{}

/// The blocks of a text are numbered from 1 and begin at a line from 1 on, and their lines have no line feed.
pub fn blocks_of_texts()
    ensures complete { (bytes : List ℕ) (before : List TextBlock) (block : TextBlock) → complete bytes ≡ before ++ block ∷ [] → IsTextBlock block }
    ensures all { (bytes : List ℕ) (before : List TextBlock) (block : TextBlock) → blocks bytes ≡ before ++ block ∷ [] → IsTextBlock block }
{}

/// A refusal names a line of its block, and a line of a block of a text is counted from 1.
pub fn refusals_name_lines()
    ensures within { (mode : Mode) (block : TextBlock) → IfErr (read mode block) (λ r. (block.line ≤ r.line) × (r.line < block.line + length block.lines)) }
    ensures from { (mode : Mode) (block : TextBlock) → IsTextBlock block → IfErr (read mode block) (λ r. 1 ≤ r.line) }
{}
