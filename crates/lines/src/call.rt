// The calls that a script can make.
use crate::word::Word;
use keys::MetadataFile;

// How many slots and bytes a shelf of full size has.
pub const FULL_SLOTS: usize = 4096;

pub const FULL_BYTES: usize = 4_194_304;

// One of the two fences of a pile: above the mount, or below it.
#[derive(Clone, Copy, PartialEq, Eq, Debug)]
pub enum Side {
    Outer,
    Inner,
}

// A call with its arguments.
#[derive(Clone, Copy)]
pub enum Call<'a> {
    Shelf(usize, usize),
    Image(Word<'a>),
    Mount(Word<'a>),
    Raise(Side, usize, Word<'a>),
    Lower(Side, usize),
    Get(Word<'a>, usize),
    NextKey(Word<'a>, Word<'a>, usize),
    NextChild(Word<'a>, Word<'a>, usize),
    Set(Word<'a>, Word<'a>),
    Erase(Word<'a>),
    Dump,
    Name(Word<'a>),
    Path(Word<'a>),
    Parent(Word<'a>),
    Join(Word<'a>, Word<'a>),
    Compare(Word<'a>, Word<'a>),
    Key(MetadataFile, Word<'a>),
    DataKey(Word<'a>, Word<'a>),
}
