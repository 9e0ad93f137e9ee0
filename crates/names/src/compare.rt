// A name as it is written, compared with a text.
ghost use Rattle.std.specs.Prelude.{◌≡◌, [], ◌∷◌, Some, None, MatchOption};
ghost use Rattle.text.specs.Bytes.{same, stripped};
ghost use Rattle.names.specs.Undone.{utf8, bytes_of, undone};
ghost use Rattle.names.specs.declared.undone.Undoing.TheVariants.{Plain};

use crate::undone::{Given, Undoing, given_by, state_after};

// Behind one byte, if the text begins with it.
fn past_byte(text: &[u8], b: u32) -> Option<&[u8]>
    ensures { MatchOption result (stripped (b ∷ []) text.now ≡ None) (λ r. stripped (b ∷ []) text.now ≡ Some r.now) }
{
    let (first, rest) = text.split_first()?;
    (u32::from(*first) == b).then_some(rest)
}

// Behind the UTF-8 of a character.
// Kept: `char::encode_utf8` takes no lone surrogate, and an escape can write one.
fn past_code(text: &[u8], v: u32) -> Option<&[u8]>
    ensures { MatchOption result (stripped (utf8 v) text.now ≡ None) (λ r. stripped (utf8 v) text.now ≡ Some r.now) }
{
    if v < 128 {
        return past_byte(text, v);
    }
    if v < 2048 {
        let rest = past_byte(text, 192 + v / 64)?;
        return past_byte(rest, 128 + v % 64);
    }
    let rest = if v < 65536 {
        past_byte(text, 224 + v / 4096)?
    } else {
        let rest = past_byte(text, 240 + v / 262144)?;
        past_byte(rest, 128 + v / 4096 % 64)?
    };
    let rest = past_byte(rest, 128 + v / 64 % 64)?;
    past_byte(rest, 128 + v % 64)
}

// Behind what a byte of a name gives.
fn past_given(text: &[u8], given: Option<Given>) -> Option<&[u8]>
    ensures { MatchOption result (stripped (bytes_of given) text.now ≡ None) (λ r. stripped (bytes_of given) text.now ≡ Some r.now) }
{
    match given {
        None => Some(text),
        Some(Given::Byte(b)) => past_byte(text, u32::from(b)),
        Some(Given::Code(v)) => past_code(text, v),
    }
}

// Whether a name, as it is written between its quotes, is the text once its escapes are undone.
pub fn name_is(written: &[u8], want: &[u8]) -> bool
    ensures { result ≡ same (undone Plain written.now) want.now }
{
    let mut state = Undoing::Plain;
    let mut rest = want;
    for b in written {
        let Some(left) = past_given(rest, given_by(state, *b)) else {
            return false;
        };
        rest = left;
        state = state_after(state, *b);
    }
    rest.is_empty()
}
