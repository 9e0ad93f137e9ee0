// Texts by the order of their bytes.
ghost use Rattle.std.specs.Prelude.{◌≡◌, ◌++◌};
ghost use Rattle.text.specs.Bytes.{before};

use text::{begins_with, compare};

// Whether a text comes before another.
// Kept: it says `<` in the words of the definitions, which the contracts of the crates above are written in.
#[tactic(auto, using(crate::proofs::Parted::is_lt_before))]
pub fn is_before(a: &[u8], b: &[u8]) -> bool
    ensures { result ≡ before a.now b.now }
{
    compare(a, b).is_lt()
}

// Whether a key comes before a text given in two parts.
pub fn comes_before(key: &[u8], front: &[u8], back: &[u8]) -> bool
    ensures { result ≡ before key.now (front.now ++ back.now) }
{
    if begins_with(key, front) {
        return is_before(&key[front.len()..], back);
    }
    is_before(key, front)
}
