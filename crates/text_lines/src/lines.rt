//! Lines of a word and fields, and single fields.
ghost use Rattle.std.specs.Prelude.{◌≡◌, List, ℕ, ◌∷◌, ◌++◌, map, OnOk};
ghost use Rattle.std.specs.Borrow.{Bor};
ghost use Rattle.report_reading.specs.ReportText.{line};
ghost use Rattle.text_lines.specs.TextLines.{spaced};

use std::alloc::AllocError;

/// Adds a space and a field.
pub fn add_field(text: &mut Vec<u8>, field: &[u8]) -> Result<(), AllocError>
    ensures { OnOk result (text.new.items ≡ text.old.items ++ spaced field.now) }
{
    text.push(b' ')?;
    text.extend_from_slice(field)?;
    Ok(())
}

/// Adds a line of a word and fields.
pub fn add_line(text: &mut Vec<u8>, word: &[u8], fields: &[&[u8]]) -> Result<(), AllocError>
    ensures { OnOk result (text.new.items ≡ text.old.items ++ line (word.now ∷ map (λ (f : Bor (List ℕ)). f.now) fields.now)) }
{
    text.extend_from_slice(word)?;
    for field in fields {
        add_field(text, field)?;
    }
    text.push(b'\n')?;
    Ok(())
}
