//! The numbers of a line.
ghost use Rattle.std.specs.Prelude.{◌≡◌, ◌&&◌, ◌||◌, ◌==◌, ◌^◌, not, length, nat_lt, if◌then◌else◌, Some, None};
ghost use Rattle.graph_text.specs.Reading.{are_digits, number_of};
ghost use Rattle.report_reading.specs.LineFields.{begins_with_zero, number_in, limit_in, place_in, decision_in};

use decomposition::Decision;

/// Whether the bytes are one or more digits.
fn are_digits(bytes: &[u8]) -> bool
    ensures { result ≡ are_digits bytes.now }
{
    !bytes.is_empty() && bytes.iter().all(|byte| b'0' <= *byte && *byte <= b'9')
}

/// Whether the bytes are digits without a leading zero.
fn is_plain(bytes: &[u8]) -> bool
    ensures { result ≡ (are_digits bytes.now && (length bytes.now == 1 || not (begins_with_zero bytes.now))) }
{
    are_digits(bytes) && (bytes.len() == 1 || !bytes.starts_with(b"0"))
}

/// The number that digits spell, where it fits 64 bits.
fn value_of(digits: &[u8]) -> Option<u64>
    ensures { result ≡ (if nat_lt (number_of digits.now) (2 ^ 64) then Some (number_of digits.now) else None) }
{
    let mut value: u64 = 0;
    for digit in digits {
        let Some(tens) = value.checked_mul(10) else {
            return None;
        };
        let Some(more) = tens.checked_add(u64::from(digit.saturating_sub(b'0'))) else {
            return None;
        };
        value = more;
    }
    Some(value)
}

/// The number of a field, where it is neither below the least nor above the most.
pub(crate) fn number_in(least: u64, most: u64, field: &[u8]) -> Option<u64>
    ensures { result ≡ number_in least most field.now }
{
    if !is_plain(field) {
        return None;
    }
    match value_of(field) {
        Some(number) if least <= number && number <= most => Some(number),
        _ => None,
    }
}

/// A number below 2^32, between the least and the most.
fn small_number_in(least: u32, most: u32, field: &[u8]) -> Option<u32>
    ensures { result ≡ number_in least most field.now }
{
    match number_in(u64::from(least), u64::from(most), field) {
        Some(number) => Some(number as u32),
        None => None,
    }
}

/// A number, or none.
pub(crate) fn limit_in(field: &[u8]) -> Option<Option<u64>>
    ensures { result ≡ limit_in field.now }
{
    if field == b"none".as_slice() {
        return Some(None);
    }
    match number_in(0, u64::MAX, field) {
        Some(number) => Some(Some(number)),
        None => None,
    }
}

/// A slot or a rule, counted from 0.
pub(crate) fn place_in(field: &[u8]) -> Option<u32>
    ensures { result ≡ place_in field.now }
{
    match small_number_in(1, u32::MAX, field) {
        Some(number) => Some(number.saturating_sub(1)),
        None => None,
    }
}

/// The penalty of a model.
pub(crate) fn penalty_in(field: &[u8]) -> Option<u32>
    ensures { result ≡ number_in 0 64 field.now }
{
    small_number_in(0, 64, field)
}

/// A decision, from its slots and its limit.
pub(crate) fn decision_in(slots: &[u8], limit: &[u8]) -> Option<Decision>
    ensures { result ≡ decision_in slots.now limit.now }
{
    let slots = small_number_in(0, u32::MAX, slots)?;
    let limit = limit_in(limit)?;
    Some(Decision { slots, limit })
}
