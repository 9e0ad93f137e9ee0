// The records of an image, one by one.
ghost use Rattle.std.specs.Prelude.{◌≡◌, false, true, ◌+◌, ◌<◌, ◌≤◌, length, MatchOption, nat_le};
ghost use Rattle.images.specs.Layout.{key_in, value_in};
ghost use Rattle.images.specs.Tests.{pair_at, good_at, Placed, Counted};

use crate::numbers::{long, short};
use keys::is_key;
use runs::is_before;

// How many bytes a record of a pair has.
pub(crate) const RECORD: usize = 15;

// How many bytes an image has at most.
const LONGEST: usize = 4194304;

// The record of a pair that lies at a place of an image, with its parts in the image.
#[derive(Clone, Copy)]
pub(crate) struct Record<'a> {
    image: &'a [u8],
    at: usize,
    ghost placed: { Placed image.now at },
}

impl<'a> Record<'a> {
    // The record at a place that is known to have one.
    pub(crate) fn new(image: &'a [u8], at: usize) -> Record<'a>
        requires { Placed image.now at }
        ensures { (result.image.now ≡ image.now) × (result.at ≡ at) }
    {
        Record { image, at }
    }

    // The record at a place, if a pair has one there.
    fn at(image: &'a [u8], at: usize) -> Option<Record<'a>>
        ensures { MatchOption result (pair_at image.now at ≡ false) (λ r. (pair_at image.now at ≡ true) × (r.image.now ≡ image.now) × (r.at ≡ at)) }
    {
        if has_pair(image, at) {
            Some(Record { image, at })
        } else {
            None
        }
    }

    // The key of the pair.
    pub(crate) fn key(&self) -> &'a [u8]
        ensures { result.now ≡ key_in self.now.image.now self.now.at }
    {
        let place = long(self.image, self.at + 1);
        let n = short(self.image, self.at + 5);
        &self.image[place..place + n]
    }

    // The value of the pair.
    pub(crate) fn value(&self) -> &'a [u8]
        ensures { result.now ≡ value_in self.now.image.now self.now.at }
    {
        let place = long(self.image, self.at + 7);
        let n = long(self.image, self.at + 11);
        &self.image[place..place + n]
    }
}

// Whether so many bytes from a place on lie in the image.
fn inside(image: &[u8], place: usize, n: usize) -> bool
    requires { (place < 4294967296) × (n < 4294967296) }
    ensures { result ≡ nat_le (place + n) (length image.now) }
{
    place + n <= image.len()
}

// Whether a whole record of a pair lies at a place, and its parts in the image.
fn has_pair(image: &[u8], at: usize) -> bool
    ensures { result ≡ pair_at image.now at }
{
    if image.len().saturating_sub(at) < RECORD || image[at] != 1 {
        return false;
    }
    let key_place = long(image, at + 1);
    let key_len = short(image, at + 5);
    let value_place = long(image, at + 7);
    let value_len = long(image, at + 11);
    inside(image, key_place, key_len) && inside(image, value_place, value_len)
}

// The record at a place, if its key is one and comes after the last one.
fn next<'a>(last: &[u8], image: &'a [u8], at: usize) -> Option<Record<'a>>
    ensures { MatchOption result (good_at last.now image.now at ≡ false) (λ r. (good_at last.now image.now at ≡ true) × (r.image.now ≡ image.now) × (r.at ≡ at)) }
{
    let record = Record::at(image, at)?;
    let key = record.key();
    if is_key(key) && is_before(last, key) {
        Some(record)
    } else {
        None
    }
}

// How many pairs there are up to the end of the records; none where the bytes are no image.
pub(crate) fn tally(image: &[u8]) -> Option<usize>
    ensures { Counted image.now result }
{
    if image.len() > LONGEST {
        return None;
    }
    let mut last: &[u8] = b"";
    for (n, record) in image.chunks(RECORD).enumerate() {
        if record[0] == 0 {
            return Some(n);
        }
        last = next(last, image, RECORD * n)?.key();
    }
    None
}
