// Where a key stands, and its value.
ghost use Rattle.std.specs.Prelude.{◌≡◌, length};
ghost use Rattle.stores.specs.Answers.{got, answer, filled};
ghost use Rattle.runs.specs.Search.{Located};

use crate::run::PairRun;
use crate::search::seek;
use keys::{StoreFault, is_key};
use stores::hand_out;
use text::equal;

// The place of a key, if it is there.
pub fn find<R: PairRun>(run: &R, key: &[u8]) -> Option<usize>
    ensures { Located (R.PairRun.pairs run.now) key.now result }
{
    let i = seek(run, key, b"");
    if i < run.count() && equal(key, run.key_at(i)) {
        Some(i)
    } else {
        None
    }
}

// The value of a key, written to the front of the buffer; answers its length.
pub fn get<R: PairRun>(run: &R, key: &[u8], buf: &mut [u8]) -> Result<Option<usize>, StoreFault>
    ensures answers { result ≡ answer (got 400 (R.PairRun.pairs run.now) key.now (length buf.old)) }
    ensures fills { buf.new ≡ filled (got 400 (R.PairRun.pairs run.now) key.now (length buf.old)) buf.old }
{
    if !is_key(key) {
        return Err(StoreFault::Malformed);
    }
    match find(run, key) {
        None => Ok(None),
        Some(i) => hand_out(run.value_at(i), buf),
    }
}
