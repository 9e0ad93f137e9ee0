// Words of a vector: bytes as they are, or in hex after `#`.
use std::alloc::{AllocError, Global};

// The bytes of a word. A digit that is none of 0 to 9 and a to f counts 0, and one without a second stands for itself.
// Kept: the words of a script, of which one with such a digit or an odd one has no bytes, and a capital is a digit.
pub(crate) fn decoded(heap: Global, word: &str) -> Result<Vec<u8>, AllocError> {
    match word.as_bytes() {
        [b'#', digits @ ..] => digits.chunks(2).map(pair_value).collect(heap),
        bytes => Vec::from_slice(heap, bytes),
    }
}

fn pair_value(pair: &[u8]) -> u8 {
    pair.iter().fold(
        0u8,
        |value, digit| value.wrapping_mul(16).wrapping_add(digit_value(*digit)),
    )
}

fn digit_value(digit: u8) -> u8 {
    match digit {
        b'0'..=b'9' => digit - b'0',
        b'a'..=b'f' => digit - b'a' + 10,
        _ => 0,
    }
}

#[cfg(test)]
mod tests {
    use super::decoded;
    use std::test::Fail;

    // Words that no vector of the repository has: an odd digit, digits that are none, capitals.
    #[test]
    fn reads_what_is_no_pair_of_digits(rt: HostRuntime) -> Result<(), Fail> {
        let heap = rt.alloc();
        assert!(rt; decoded(heap, "#4")?.as_slice() == b"\x04".as_slice());
        assert!(rt; decoded(heap, "#zz")?.as_slice() == b"\x00".as_slice());
        assert!(rt; decoded(heap, "#2F61")?.as_slice() == b"\x20a".as_slice());
        assert!(rt; decoded(heap, "#c3a9")?.as_slice() == b"\xc3\xa9".as_slice());
        assert!(rt; decoded(heap, "#")?.as_slice() == b"".as_slice());
        assert!(rt; decoded(heap, "a#6")?.as_slice() == b"a#6".as_slice());
        Ok(())
    }
}
