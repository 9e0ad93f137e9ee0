// Byte strings of a fixed size in memory.
ghost use Rattle.std.specs.Prelude.{◌≡◌, ◌+◌, ◌<◌, ◌≤◌, true, ◌++◌, length, take, drop, replicate, MatchOption, slice_index};
ghost use Rattle.paths.specs.Held.{all_zero};

// A byte string of at most N bytes, kept in place; the bytes behind it are zero, so equal texts are equal values.
// Kept: the library's array types keep no zeros behind the text, which is what makes equal texts equal in memory; no heap in the engine.
#[derive(Clone, Copy)]
pub struct Inline<const N: usize> {
    pub(crate) bytes: [u8; N],
    pub(crate) len: usize,
    ghost few: { len ≤ N },
    ghost long: { length bytes ≡ N },
    ghost clean: { all_zero (drop len bytes) ≡ true },
}

impl<const N: usize> Inline<N> {
    // The three parts one after the other, or none if they are longer than N bytes.
    // Kept: three slices side by side, here and where they are handed on; a struct of the three would say no more.
    pub fn of(front: &[u8], middle: &[u8], back: &[u8]) -> Option<Inline<N>>
        ensures { MatchOption result (N < length front.now + length middle.now + length back.now) (λ v. take v.len v.bytes ≡ front.now ++ (middle.now ++ back.now)) }
    {
        if front.len() > N
            || middle.len() > N - front.len()
            || back.len() > N - front.len() - middle.len()
        {
            return None;
        }
        let len = front.len() + middle.len() + back.len();
        let bytes = filled(front, middle, back);
        Some(Inline { bytes, len })
    }

    pub fn as_bytes(&self) -> &[u8]
        ensures { result.now ≡ take self.now.len self.now.bytes }
    {
        &self.bytes[..self.len]
    }
}

// The three parts one after the other, and zeros.
fn filled<const N: usize>(front: &[u8], middle: &[u8], back: &[u8]) -> [u8; N]
    requires { length front.now + length middle.now + length back.now ≤ N }
    ensures { result ≡ (front.now ++ (middle.now ++ back.now)) ++ drop (length front.now + length middle.now + length back.now) (replicate N 0) }
{
    let middle_at = front.len();
    let back_at = middle_at + middle.len();
    let end = back_at + back.len();
    let mut bytes = [0u8; N];
    let all = &mut bytes[..];
    all[..middle_at].copy_from_slice(front);
    all[middle_at..back_at].copy_from_slice(middle);
    all[back_at..end].copy_from_slice(back);
    bytes
}
