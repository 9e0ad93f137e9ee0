// Texts cut, joined and handed on.
ghost use Rattle.std.specs.Prelude.{◌≡◌, ◌++◌, length, take};
ghost use Rattle.stores.specs.Answers.{answer, filled};
ghost use Rattle.mounts.specs.Fronts.{empty_under, Holds, shown_part};

use keys::StoreFault;
use paths::Inline;
use stores::hand_out;

// The first 400 bytes of two texts one after the other: no key is longer, so no more tells which keys come after.
pub(crate) fn joined_cut(front: &[u8], back: &[u8]) -> Inline<400>
    ensures { take result.len result.bytes ≡ take 400 (front.now ++ back.now) }
{
    let first = &front[..front.len().min(400)];
    let second = &back[..back.len().min(400 - first.len())];
    Inline::of(first, b"", second).unwrap()
}

// What was answered below, with the key that it found shown without its first bytes.
pub(crate) fn hand_on(
    seen: Result<Option<usize>, StoreFault>,
    key: &[u8],
    front: usize,
    buf: &mut [u8],
) -> Result<Option<usize>, StoreFault>
    requires { Holds seen front (length key.now) }
    ensures answers { result ≡ answer (shown_part seen key.now front (length buf.old)) }
    ensures fills { buf.new ≡ filled (shown_part seen key.now front (length buf.old)) buf.old }
{
    match seen? {
        Some(n) => hand_out(&key[front..n], buf),
        None => Ok(None),
    }
}

// What a store that can have no key lists: nothing under the empty prefix, the only one that is well formed.
pub(crate) fn list_none(prefix: &[u8]) -> Result<Option<usize>, StoreFault>
    ensures { result ≡ answer (empty_under prefix.now) }
{
    if prefix.is_empty() {
        Ok(None)
    } else {
        Err(StoreFault::Malformed)
    }
}
