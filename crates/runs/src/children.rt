// Children under a prefix: what stands between the prefix and the next `/` of some key.
ghost use Rattle.std.specs.Prelude.{◌≡◌, ◌+◌, ◌≤◌, length, position, ◌==◌};
ghost use Rattle.runs.specs.Openings.{Leads, Opening, Offers, First};

use crate::order::{comes_before, is_before};
use crate::run::PairRun;
use crate::search::seek;
use text::begins_with;

// Where the key of a child stands, and how long the child is.
#[derive(Drop)]
pub(crate) struct Child {
    pub(crate) place: usize,
    pub(crate) len: usize,
}

// How long the part before the first `/` is.
fn cut(text: &[u8]) -> Option<usize>
    ensures { result ≡ position (λ b. b == 47) text.now }
{
    text.iter().position(|b| *b == b'/')
}

// Whether some key is the text, `/` and more.
fn leads<R: PairRun>(run: &R, text: &[u8]) -> bool
    ensures { Leads (R.PairRun.pairs run.now) text.now result }
{
    let i = seek(run, text, b"/");
    i < run.count() && comes_before(run.key_at(i), text, b"0")
}

// The first key whose child comes after the given bytes.
pub(crate) fn opening<R: PairRun>(run: &R, prefix: &[u8], after: &[u8]) -> Option<Child>
    ensures { Opening (R.PairRun.pairs run.now) prefix.now after.now result }
{
    let count = run.count();
    let mut i = seek(run, prefix, after);
    // Kept: the place jumps past what lies under a child, so no `for` goes over it.
    while i < count {
        let key = run.key_at(i);
        if !begins_with(key, prefix) {
            return None;
        }
        let rest = &key[prefix.len()..];
        match cut(rest) {
            None => i += 1,
            Some(n) => {
                if is_before(after, &rest[..n]) {
                    return Some(Child { place: i, len: n });
                }
                i = seek(run, &key[..prefix.len() + n], b"0");
            }
        }
    }
    None
}

// Whether the m bytes of a key behind its first ones come after the given bytes and have keys below them.
fn offers<R: PairRun>(run: &R, key: &[u8], from: usize, m: usize, after: &[u8]) -> bool
    requires { from + m ≤ length key.now }
    ensures { Offers (R.PairRun.pairs run.now) key.now from after.now m result }
{
    is_before(after, &key[from..from + m]) && leads(run, &key[..from + m])
}

// The shortest front of a child that is a child itself and comes after the given bytes: how long it is.
pub(crate) fn shortest<R: PairRun>(
    run: &R,
    key: &[u8],
    from: usize,
    n: usize,
    after: &[u8],
) -> usize
    requires { from + n ≤ length key.now }
    ensures { First (R.PairRun.pairs run.now) key.now from after.now n result }
{
    (0..n)
        .find(|m| offers(run, key, from, *m, after))
        .unwrap_or(n)
}
