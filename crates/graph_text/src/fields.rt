//! The fields of a line, and what a line shows by its first bytes.
ghost use Rattle.std.specs.Prelude.{◌≡◌, ◌<◌, ◌&&◌, List, ℕ, false, length, drop, map, nat_le, if◌then◌else◌, Some, None, IfOk};
ghost use Rattle.std.specs.Borrow.{Bor};
ghost use Rattle.std.specs.List.{take_while};
ghost use Rattle.graph_text.specs.Lines.{is_blank, fields_of, are_no_fields, are_hash_fields, are_run_fields};
ghost use Rattle.graph_text.specs.Blocks.{after_blanks, trimmed};
ghost use Rattle.graph_text.specs.Reading.{are_digits, are_zeros, number_of, weight_in, is_count, most_weight};

use std::alloc::{AllocError, Global};

/// The greatest weight.
const MOST_WEIGHT: u64 = 1_000_000_000_000;

/// Whether a byte is a space or a tab.
pub(crate) fn is_blank(byte: u8) -> bool
    ensures { result ≡ is_blank byte }
{
    byte == b' ' || byte == b'\t'
}

/// The fields of a line.
pub fn fields(alloc: Global, text: &[u8]) -> Result<Vec<&[u8]>, AllocError>
    ensures { IfOk result (λ fields. map (λ field. field.now) fields.items ≡ fields_of text.now) }
{
    text.split(|byte| is_blank(*byte))
        .filter(|field| !field.is_empty())
        .collect(alloc)
}

/// How many blanks a text begins with.
pub(crate) fn blanks_in_front(text: &[u8]) -> usize
    ensures { result ≡ length (take_while is_blank text.now) }
{
    text.iter().take_while(|byte| is_blank(**byte)).count()
}

/// A text from its first byte on that is no blank.
pub(crate) fn after_blanks(text: &[u8]) -> &[u8]
    ensures { result.now ≡ after_blanks text.now }
{
    &text[blanks_in_front(text)..]
}

/// Whether a text has no field.
pub fn is_blank_text(text: &[u8]) -> bool
    ensures { result ≡ are_no_fields (fields_of text.now) }
{
    after_blanks(text).is_empty()
}

/// Whether the first field of a text begins with `#`.
pub fn is_hash_text(text: &[u8]) -> bool
    ensures { result ≡ are_hash_fields (fields_of text.now) }
{
    after_blanks(text).starts_with(b"#")
}

/// Whether the first field of a text is `#S`.
pub(crate) fn is_run_text(text: &[u8]) -> bool
    ensures { result ≡ are_run_fields (fields_of text.now) }
{
    let rest = after_blanks(text);
    rest.starts_with(b"#S") && (rest.len() == 2 || is_blank(rest[2]))
}

/// A text without the blanks at both ends.
fn trimmed(text: &[u8]) -> &[u8]
    ensures { result.now ≡ trimmed text.now }
{
    let rest = after_blanks(text);
    let mut end = rest.len();
    while end > 0 && is_blank(rest[end - 1]) {
        end -= 1;
    }
    &rest[..end]
}

/// The name that a `#` line gives its block: what stands after the `#`.
pub(crate) fn name_in_text(text: &[u8]) -> &[u8]
    ensures { result.now ≡ trimmed (drop 1 (after_blanks text.now)) }
{
    let rest = after_blanks(text);
    if rest.is_empty() {
        return trimmed(rest);
    }
    trimmed(&rest[1..])
}

/// Whether a byte is a digit.
fn is_digit(byte: u8) -> bool
    ensures { result ≡ (nat_le 48 byte && nat_le byte 57) }
{
    b'0' <= byte && byte <= b'9'
}

/// Whether the bytes are one or more digits.
fn are_digits(bytes: &[u8]) -> bool
    ensures { result ≡ are_digits bytes.now }
{
    !bytes.is_empty() && bytes.iter().all(|byte| is_digit(*byte))
}

/// Whether the bytes are one or more zeros.
fn are_zeros(bytes: &[u8]) -> bool
    ensures { result ≡ are_zeros bytes.now }
{
    !bytes.is_empty() && bytes.iter().all(|byte| *byte == b'0')
}

/// The number that bytes spell as digits, where it is no greater than a weight may be.
fn capped_number(digits: &[u8]) -> Option<u64>
    ensures { result ≡ (if nat_le (number_of digits.now) most_weight then Some (number_of digits.now) else None) }
{
    let mut value = 0;
    for digit in digits {
        value = 10 * value + u64::from(digit.saturating_sub(b'0'));
        if value > MOST_WEIGHT {
            return None;
        }
    }
    Some(value)
}

/// The weight that is spelled by digits alone.
fn whole_weight(digits: &[u8]) -> Option<u64>
    ensures { result ≡ (if are_digits digits.now && nat_le (number_of digits.now) most_weight then Some (number_of digits.now) else None) }
{
    if are_digits(digits) {
        capped_number(digits)
    } else {
        None
    }
}

/// The value of a weight: digits, or digits, a point and zeros.
pub fn parse_weight(field: &[u8]) -> Option<u64>
    ensures { result ≡ weight_in field.now }
{
    match field.iter().position(|byte| *byte == b'.') {
        None => whole_weight(field),
        Some(point) if are_zeros(&field[point + 1..]) => whole_weight(&field[..point]),
        Some(_) => None,
    }
}

/// Whether the fields are those of a count line: one field of 1 to 19 digits.
pub(crate) fn is_count(fields: &[&[u8]]) -> bool
    ensures { result ≡ is_count (map (λ (field : Bor (List ℕ)). field.now) fields.now) }
{
    match fields {
        [field] => are_digits(field) && field.len() <= 19,
        _ => false,
    }
}
