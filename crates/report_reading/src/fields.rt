//! The fields of a line, and its words.
ghost use Rattle.std.specs.Prelude.{◌≡◌, ◌==◌, length, drop, IfOk};
ghost use Rattle.std.specs.List.{list_any, slice_split, starts_with};
ghost use Rattle.std.specs.Str.{bytes_eq};
ghost use Rattle.report_reading.specs.LineFields.{texts, spaced_fields, field_at, has_words, has_words_and_more};

use std::alloc::{AllocError, Global};

/// The fields of a line, one space between each two: none where the spacing is another.
pub(crate) fn spaced_fields(alloc: Global, line: &[u8]) -> Result<Vec<&[u8]>, AllocError>
    ensures { IfOk result (λ fields. texts fields.items ≡ spaced_fields line.now) }
{
    let fields = split_fields(alloc, line)?;
    if has_byte(line, b'\t') || has_empty(&fields) {
        Ok(Vec::new(alloc))
    } else {
        Ok(fields)
    }
}

/// Whether there is such a byte.
pub(crate) fn has_byte(bytes: &[u8], wanted: u8) -> bool
    ensures { result ≡ list_any (λ b. b == wanted) bytes.now }
{
    bytes.iter().any(|byte| *byte == wanted)
}

/// What stands between the spaces of a line.
fn split_fields(alloc: Global, line: &[u8]) -> Result<Vec<&[u8]>, AllocError>
    ensures { IfOk result (λ fields. texts fields.items ≡ slice_split (λ b. b == 32) line.now) }
{
    line.split(|byte| *byte == b' ').collect(alloc)
}

/// Whether a field is empty.
fn has_empty(fields: &[&[u8]]) -> bool
    ensures { result ≡ list_any (λ field. length field == 0) (texts fields.now) }
{
    fields.iter().any(|field| field.is_empty())
}

/// The field at a place, empty past the last one.
pub(crate) fn field_at<'a>(fields: &[&'a [u8]], i: usize) -> &'a [u8]
    ensures { result.now ≡ field_at (texts fields.now) i }
{
    if i < fields.len() { fields[i] } else { b"" }
}

/// The fields from a place on.
pub(crate) fn fields_from<'a, 'b>(fields: &'b [&'a [u8]], i: usize) -> &'b [&'a [u8]]
    ensures { texts result.now ≡ drop i (texts fields.now) }
{
    if i < fields.len() { &fields[i..] } else { &[] }
}

/// Whether two fields are the same.
fn is_same(first: &[u8], second: &[u8]) -> bool
    ensures { result ≡ bytes_eq first.now second.now }
{
    first == second
}

/// Whether the fields begin with these words.
fn begin_with(fields: &[&[u8]], words: &[&[u8]]) -> bool
    ensures { result ≡ starts_with bytes_eq (texts fields.now) (texts words.now) }
{
    if fields.len() < words.len() {
        return false;
    }
    for i in 0..words.len() {
        if !is_same(field_at(words, i), field_at(fields, i)) {
            return false;
        }
    }
    true
}

/// Whether so many fields begin with these words.
pub(crate) fn has_words(fields: &[&[u8]], words: &[&[u8]], count: usize) -> bool
    ensures { result ≡ has_words (texts words.now) count (texts fields.now) }
{
    fields.len() == count && begin_with(fields, words)
}

/// Whether at least so many fields begin with these words.
pub(crate) fn has_words_and_more(fields: &[&[u8]], words: &[&[u8]], least: usize) -> bool
    ensures { result ≡ has_words_and_more (texts words.now) least (texts fields.now) }
{
    least <= fields.len() && begin_with(fields, words)
}
