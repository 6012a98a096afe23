//! The reading of numbers.
ghost use Rattle.std.specs.Prelude.{◌≡◌, ◌&&◌, nat_le, if◌then◌else◌, Some, None};
ghost use Rattle.graph_text.specs.Reading.{are_digits, number_of};
ghost use Rattle.flowpaths_cli.specs.Numbers.{number_in};

/// The most tokens of a search that the words may name.
pub const MOST_NODES: u32 = 1_000_000;

/// The most paths.
pub const MOST_PATHS: u32 = 64;

/// The greatest seed.
pub const MOST_SEED: u32 = 2_147_483_647;

/// The most digits of a number.
const MOST_DIGITS: usize = 10;

/// Whether a byte is a digit.
fn is_digit(byte: u8) -> bool
    ensures { result ≡ (nat_le 48 byte && nat_le byte 57) }
{
    b'0' <= byte && byte <= b'9'
}

/// Whether the bytes are one or more digits.
fn are_digits(bytes: &[u8]) -> bool
    ensures { result ≡ are_digits bytes.now }
{
    !bytes.is_empty() && bytes.iter().all(|byte| is_digit(*byte))
}

/// The number that digits spell, where it is no greater than the most.
fn capped_number(digits: &[u8], most: u32) -> Option<u32>
    ensures { result ≡ (if nat_le (number_of digits.now) most then Some (number_of digits.now) else None) }
{
    let most = u64::from(most);
    let mut value = 0;
    for digit in digits {
        value = 10 * value + u64::from(digit.saturating_sub(b'0'));
        if value > most {
            return None;
        }
    }
    Some(value as u32)
}

/// The number of 1 to 10 digits that a word spells, where it is in a range.
pub fn number_in(least: u32, most: u32, word: &str) -> Option<u32>
    ensures { result ≡ number_in least most word.now }
{
    let digits = word.as_bytes();
    if !are_digits(digits) || digits.len() > MOST_DIGITS {
        return None;
    }
    capped_number(digits, most).filter(|number| least <= *number)
}
