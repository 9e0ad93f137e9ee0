// Keys under a prefix, in their order.
ghost use Rattle.std.specs.Prelude.{◌≡◌, length};
ghost use Rattle.stores.specs.Answers.{key_after, child_after, answer, filled};

use crate::children::{opening, shortest};
use crate::run::PairRun;
use crate::search::seek;
use keys::{StoreFault, is_prefix};
use stores::hand_out;
use text::begins_with;

// The least key under the prefix that comes after the given bytes, written to the front of the buffer.
pub fn next_key<R: PairRun>(
    run: &R,
    prefix: &[u8],
    after: &[u8],
    buf: &mut [u8],
) -> Result<Option<usize>, StoreFault>
    ensures answers { result ≡ answer (key_after 400 (R.PairRun.pairs run.now) prefix.now after.now (length buf.old)) }
    ensures fills { buf.new ≡ filled (key_after 400 (R.PairRun.pairs run.now) prefix.now after.now (length buf.old)) buf.old }
{
    if !is_prefix(prefix) {
        return Err(StoreFault::Malformed);
    }
    let under = seek(run, prefix, b"");
    let behind = seek(run, after, b"\0");
    let i = under.max(behind);
    if i >= run.count() {
        return Ok(None);
    }
    let key = run.key_at(i);
    if !begins_with(key, prefix) {
        return Ok(None);
    }
    hand_out(key, buf)
}

// The least child of the prefix that comes after the given bytes, written to the front of the buffer.
// Keys and children stand in the same order but for a child and a longer one that begins with it.
pub fn next_child<R: PairRun>(
    run: &R,
    prefix: &[u8],
    after: &[u8],
    buf: &mut [u8],
) -> Result<Option<usize>, StoreFault>
    ensures answers { result ≡ answer (child_after 400 (R.PairRun.pairs run.now) prefix.now after.now (length buf.old)) }
    ensures fills { buf.new ≡ filled (child_after 400 (R.PairRun.pairs run.now) prefix.now after.now (length buf.old)) buf.old }
{
    if !is_prefix(prefix) {
        return Err(StoreFault::Malformed);
    }
    match opening(run, prefix, after) {
        None => Ok(None),
        Some(child) => {
            let key = run.key_at(child.place);
            let m = shortest(run, key, prefix.len(), child.len, after);
            hand_out(&key[prefix.len()..prefix.len() + m], buf)
        }
    }
}
