// Byte strings compared: equal, in order, one at the front of the other.
ghost use Rattle.std.specs.Prelude.{◌≡◌, ℕ, ◌<◌, ◌≤◌, length, take, is_some, ◌≢◌, slice_index};
ghost use Rattle.text.specs.Bytes.{same, byte_order, order_by, stripped};

use std::cmp::Ordering;

// How many bytes two byte strings have in common at their front.
pub fn shared_len(a: &[u8], b: &[u8]) -> usize
    ensures within { (result ≤ length a.now) × (result ≤ length b.now) }
    ensures shared { take result a.now ≡ take result b.now }
    ensures ends { result < length a.now → result < length b.now → slice_index a.now result ≢ slice_index b.now result }
{
    a.iter().zip(b).take_while(|(x, y)| x == y).count()
}

// Kept: `equal`, `begins_with` and `compare` call the library's methods and say what they answer in the words of specs/Bytes, which the contracts of the crates above are written in.

// Whether two byte strings are equal.
pub fn equal(a: &[u8], b: &[u8]) -> bool
    ensures { result ≡ same a.now b.now }
{
    a == b
}

// Whether the text begins with the prefix.
pub fn begins_with(text: &[u8], prefix: &[u8]) -> bool
    ensures { result ≡ is_some (stripped prefix.now text.now) }
{
    text.starts_with(prefix)
}

// What a byte counts where two byte strings first differ.
// Kept: a trait, since the contract names the ranks as a function, and of a closure it could only say what each call gave.
pub trait ByteRank {
    ghost ranks: { ℕ → ℕ };

    fn rank(b: u8) -> u16
        ensures { result ≡ ranks b };
}

// The order by ranked bytes: the first byte that differs decides, and the shorter one comes first.
pub fn compare_by<R: ByteRank>(a: &[u8], b: &[u8]) -> Ordering
    ensures { result ≡ order_by R.ByteRank.ranks a.now b.now }
{
    match a.iter().zip(b).find(|(x, y)| x != y) {
        None => a.len().cmp(&b.len()),
        Some((x, y)) => {
            // Kept: two bytes of one rank still differ, so this is not the order of the ranks.
            if R::rank(*x) < R::rank(*y) {
                Ordering::Less
            } else {
                Ordering::Greater
            }
        }
    }
}

// The order by bytes.
pub fn compare(a: &[u8], b: &[u8]) -> Ordering
    ensures { result ≡ byte_order a.now b.now }
{
    a.cmp(&b)
}
