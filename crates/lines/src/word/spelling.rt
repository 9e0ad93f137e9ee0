// The bytes that words write.
ghost use Rattle.std.specs.Prelude.{◌≡◌, ◌<◌, true, IfOk, Some, None, MatchOption};
ghost use Rattle.lines.specs.Words.{is_hex, hex_value, are_hex, unhexed, hashed, spelled};
ghost use Rattle.lines.specs.Spoken.{spoken, bytes_of};

use super::Word;
use std::alloc::{AllocError, Global};

impl<'a> Word<'a> {
    // The word, or none if its digits are no bytes.
    pub fn new(text: &'a [u8]) -> Option<Word<'a>>
        ensures { spoken result ≡ spelled text.now }
    {
        match digits_of(text) {
            Some(digits) if !are_hex(digits) => None,
            _ => Some(Word { text }),
        }
    }

    // The bytes that it writes.
    pub fn bytes(&self, heap: Global) -> Result<Vec<u8>, AllocError>
        ensures { IfOk result (λ v. v.items ≡ bytes_of self.now) }
    {
        match digits_of(self.text) {
            Some(digits) => unhex(heap, digits),
            None => Vec::from_slice(heap, self.text),
        }
    }
}

// What stands behind a `#` at the front.
fn digits_of(text: &[u8]) -> Option<&[u8]>
    ensures { MatchOption result (hashed text.now ≡ None) (λ d. hashed text.now ≡ Some d.now) }
{
    match text {
        [b'#', digits @ ..] => Some(digits),
        _ => None,
    }
}

// Whether the bytes are hexadecimal digits in pairs.
fn are_hex(digits: &[u8]) -> bool
    ensures { result ≡ are_hex digits.now }
{
    digits.len() % 2 == 0 && digits.iter().all(|digit| digit.is_ascii_hexdigit())
}

// The bytes that pairs of hexadecimal digits write.
fn unhex(heap: Global, digits: &[u8]) -> Result<Vec<u8>, AllocError>
    requires { are_hex digits.now ≡ true }
    ensures { IfOk result (λ v. v.items ≡ unhexed digits.now) }
{
    let mut out = Vec::new(heap);
    for pair in digits.chunks_exact(2) {
        out.push(16 * hex_value(pair[0]) + hex_value(pair[1]))?;
    }
    Ok(out)
}

// The value of a hexadecimal digit.
// Kept: one line, as `hex_of` of `names` has, on which this crate does not lean; to share it would take a public function of a third crate.
fn hex_value(digit: u8) -> u8
    requires { is_hex digit ≡ true }
    ensures is { result ≡ hex_value digit }
    ensures small { result < 16 }
{
    (digit as char).to_digit(16).unwrap_or(0) as u8
}
