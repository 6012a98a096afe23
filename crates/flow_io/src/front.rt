//! Copies of the first bytes of a list.
ghost use Rattle.std.specs.Prelude.{◌≡◌, min, length, take};

/// Copies as many of the first bytes as there are and as fit to the front of `into`, and answers how many.
pub(crate) fn copy_front(left: &[u8], into: &mut [u8]) -> usize
    ensures count { result ≡ min (length left.now) (length into.old) }
    ensures bytes { take result into.new ≡ take result left.now }
{
    let count = left.len().min(into.len());
    into[..count].copy_from_slice(&left[..count]);
    count
}
