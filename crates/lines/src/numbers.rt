// Words that write numbers.
ghost use Rattle.std.specs.Prelude.{◌≡◌};
ghost use Rattle.lines.specs.Words.{digit_on, number_of, size_of};

// One more digit behind a number, if it stays below 2^64.
fn digit_on(n: usize, digit: u8) -> Option<usize>
    ensures { result ≡ digit_on n digit }
{
    if !digit.is_ascii_digit() {
        return None;
    }
    n.checked_mul(10)?.checked_add(usize::from(digit - b'0'))
}

// The number that a word writes in digits.
// Kept: with the library's parse behind a test for digits the proof did not close that both read the same number.
pub(crate) fn number_of(word: &[u8]) -> Option<usize>
    ensures { result ≡ number_of word.now }
{
    if word.is_empty() {
        return None;
    }
    let mut n = 0;
    for digit in word {
        n = digit_on(n, *digit)?;
    }
    Some(n)
}

// The size that a word writes: `full`, or a number.
pub(crate) fn size_of(full: usize, word: &[u8]) -> Option<usize>
    ensures { result ≡ size_of full word.now }
{
    if word == b"full".as_slice() {
        Some(full)
    } else {
        number_of(word)
    }
}
