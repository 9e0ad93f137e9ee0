// Words read as a call.
ghost use Rattle.std.specs.Prelude.{◌≡◌, map, vec_items};
ghost use Rattle.lines.specs.Calls.{side_of, file_of, alone as asked_alone, with_one, with_two, with_three, asked};
ghost use Rattle.lines.specs.Heard.{heard};

use crate::call::{Call, FULL_BYTES, FULL_SLOTS, Side};
use crate::numbers::{number_of, size_of};
use crate::word::Word;
use keys::MetadataFile;
use std::str;

const FULL_ROOM: usize = 1_048_576;

// The call that the words of a line ask for, or none if they ask for nothing.
pub fn parse(words: &[Vec<u8>]) -> Option<Call<'_>>
    ensures { heard result ≡ asked (map vec_items words.now) }
{
    let (name, rest) = words.split_first()?;
    let name = str::from_utf8(name.as_slice()).ok()?;
    match rest {
        [] => alone(name),
        [a] => with_one(name, a.as_slice()),
        [a, b] => with_two(name, a.as_slice(), b.as_slice()),
        [a, b, c] => with_three(name, a.as_slice(), b.as_slice(), c.as_slice()),
        _ => None,
    }
}

fn alone<'a>(name: &str) -> Option<Call<'a>>
    ensures { heard result ≡ asked_alone name.now }
{
    match name {
        "dump" => Some(Call::Dump),
        _ => None,
    }
}

fn with_one<'a>(name: &str, a: &'a [u8]) -> Option<Call<'a>>
    ensures { heard result ≡ with_one name.now a.now }
{
    match name {
        "image" => Some(Call::Image(Word::new(a)?)),
        "mount" => Some(Call::Mount(Word::new(a)?)),
        "erase" => Some(Call::Erase(Word::new(a)?)),
        "name" => Some(Call::Name(Word::new(a)?)),
        "path" => Some(Call::Path(Word::new(a)?)),
        "parent" => Some(Call::Parent(Word::new(a)?)),
        _ => None,
    }
}

fn with_two<'a>(name: &str, a: &'a [u8], b: &'a [u8]) -> Option<Call<'a>>
    ensures { heard result ≡ with_two name.now a.now b.now }
{
    match name {
        "shelf" => Some(Call::Shelf(size_of(FULL_SLOTS, a)?, size_of(FULL_BYTES, b)?)),
        "lower" => Some(Call::Lower(side_of(a)?, number_of(b)?)),
        "get" => Some(Call::Get(Word::new(a)?, size_of(FULL_ROOM, b)?)),
        "set" => Some(Call::Set(Word::new(a)?, Word::new(b)?)),
        "join" => Some(Call::Join(Word::new(a)?, Word::new(b)?)),
        "compare" => Some(Call::Compare(Word::new(a)?, Word::new(b)?)),
        "key" => Some(Call::Key(file_of(a)?, Word::new(b)?)),
        "data-key" => Some(Call::DataKey(Word::new(a)?, Word::new(b)?)),
        _ => None,
    }
}

fn with_three<'a>(name: &str, a: &'a [u8], b: &'a [u8], c: &'a [u8]) -> Option<Call<'a>>
    ensures { heard result ≡ with_three name.now a.now b.now c.now }
{
    match name {
        "raise" => Some(Call::Raise(side_of(a)?, number_of(b)?, Word::new(c)?)),
        "next-key" => Some(Call::NextKey(Word::new(a)?, Word::new(b)?, size_of(FULL_ROOM, c)?)),
        "next-child" => Some(Call::NextChild(Word::new(a)?, Word::new(b)?, size_of(FULL_ROOM, c)?)),
        _ => None,
    }
}

fn side_of(word: &[u8]) -> Option<Side>
    ensures { result ≡ side_of word.now }
{
    match str::from_utf8(word).ok()? {
        "outer" => Some(Side::Outer),
        "inner" => Some(Side::Inner),
        _ => None,
    }
}

fn file_of(word: &[u8]) -> Option<MetadataFile>
    ensures { result ≡ file_of word.now }
{
    match str::from_utf8(word).ok()? {
        "v3" => Some(MetadataFile::ZarrJson),
        "array" => Some(MetadataFile::Zarray),
        "group" => Some(MetadataFile::Zgroup),
        "attributes" => Some(MetadataFile::Zattrs),
        _ => None,
    }
}
