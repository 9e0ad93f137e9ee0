// Past white space, literals, numbers and strings. Each reader answers what is left behind its part, or the rest with which the bytes are no start of a text.
ghost use Rattle.std.specs.Prelude.{◌≡◌, Some, None, MatchResult};
ghost use Rattle.grammar.specs.Grammar.{Ws};
ghost use Rattle.documents.specs.Reading.{Part, Begins, BeginsNot, Refuses, AnyNumber, AnyString, AnyEscape, AnyUnit, AnyUnitD, Each, Differs, AfterBack, AfterU, AfterD, GotString, GotNumber};

use crate::bare::Bare;
use crate::fault::Stop;
use crate::kinds::{
    Expected, behind, char_of, escape_of, first_of, is_blank, may_end, next_phase, second_of,
};
use grammar::{Char, Class, Escape, FirstHex, Phase, SecondHex};

// Past the white space.
pub fn blanks(bytes: &[u8]) -> Bare<'_>
    ensures { Part Ws bytes.now result.bytes.now }
{
    let mut rest = bytes;
    while let Some((b, tail)) = rest.split_first() {
        if !is_blank(*b) {
            break;
        }
        rest = tail;
    }
    Bare { bytes: rest }
}

// Past bytes that are each as expected.
pub(crate) fn follow<'a, E: Expected>(bytes: &'a [u8], expected: &[E]) -> Result<&'a [u8], Stop<'a>>
    ensures { MatchResult result (λ r. Part (Each E E.meets expected.now) bytes.now r.now) (λ stop. Differs E E.meets expected.now bytes.now stop.rest.now) }
{
    let mut rest = bytes;
    for e in expected {
        match rest.split_first() {
            Some((b, tail)) if e.is_met_by(*b) => rest = tail,
            _ => return Err(Stop { rest }),
        }
    }
    Ok(rest)
}

// Past the rest of a number that has come to the phase.
#[inline]
pub(crate) fn number(bytes: &[u8], from: Phase) -> Result<&[u8], Stop<'_>>
    ensures { MatchResult result (λ r. GotNumber from bytes.now r.now) (λ stop. Refuses (AnyNumber from) bytes.now stop.rest.now) }
{
    let mut rest = bytes;
    let mut phase = from;
    while let Some((b, tail)) = rest.split_first() {
        let Some(next) = next_phase(phase, *b) else {
            break;
        };
        phase = next;
        rest = tail;
    }
    if may_end(phase) {
        Ok(rest)
    } else {
        Err(Stop { rest })
    }
}

// Behind the first two digits of a pair of surrogates: two digits, `\u`, and the digits of the second, from DC00 to DFFF.
const PAIR_TAIL: [Class; 8] = [
    Class::Hex,
    Class::Hex,
    Class::In(b'\\', b'\\'),
    Class::In(b'u', b'u'),
    Class::IsD,
    Class::CtoF,
    Class::Hex,
    Class::Hex,
];

// What kind the first byte is of, and the bytes behind it.
pub(crate) fn first<'a, K, F: Fn(u8) -> Option<K>>(
    bytes: &'a [u8],
    kind_of: F,
) -> Result<(K, &'a [u8]), Stop<'a>>
    requires { F.IsAlwaysCallable kind_of }
    ensures { MatchResult result (λ p. Begins (λ b. F.post kind_of b (Some p.0)) bytes.now p.1.now) (λ stop. BeginsNot (λ b. F.post kind_of b None) bytes.now stop.rest.now) }
{
    let stop = Stop { rest: bytes };
    let (b, tail) = bytes.split_first().ok_or(stop)?;
    let kind = kind_of(*b).ok_or(stop)?;
    Ok((kind, tail))
}

// Past the rest of a code unit that begins with `D`, and of a pair of surrogates.
fn unit_d(bytes: &[u8]) -> Result<&[u8], Stop<'_>>
    ensures { MatchResult result (λ r. Part AfterD bytes.now r.now) (λ stop. Refuses AnyUnitD bytes.now stop.rest.now) }
{
    match first(bytes, second_of)? {
        (SecondHex::Whole, tail) => follow(tail, &[Class::Hex, Class::Hex]),
        (SecondHex::High, tail) => follow(tail, &PAIR_TAIL),
    }
}

// Past the digits of a code unit, and the other one of a pair of surrogates.
fn unit(bytes: &[u8]) -> Result<&[u8], Stop<'_>>
    ensures { MatchResult result (λ r. Part AfterU bytes.now r.now) (λ stop. Refuses AnyUnit bytes.now stop.rest.now) }
{
    match first(bytes, first_of)? {
        (FirstHex::FirstD, tail) => unit_d(tail),
        (FirstHex::OtherHex, tail) => follow(tail, &[Class::Hex, Class::Hex, Class::Hex]),
    }
}

// Past an escape, from behind its backslash.
fn escape(bytes: &[u8]) -> Result<&[u8], Stop<'_>>
    ensures { MatchResult result (λ r. Part AfterBack bytes.now r.now) (λ stop. Refuses AnyEscape bytes.now stop.rest.now) }
{
    match first(bytes, escape_of)? {
        (Escape::Simple, tail) => Ok(tail),
        (Escape::CodeUnit, tail) => unit(tail),
    }
}

// From behind a string's opening quote to behind its closing one.
pub(crate) fn chars(bytes: &[u8]) -> Result<&[u8], Stop<'_>>
    ensures { MatchResult result (λ r. GotString bytes.now r.now) (λ stop. Refuses AnyString bytes.now stop.rest.now) }
{
    let mut rest = bytes;
    loop {
        rest = match first(rest, char_of)? {
            (Char::EndQuote, tail) => return Ok(tail),
            (Char::Plain, tail) => tail,
            (Char::Back, tail) => escape(tail)?,
            (Char::Long(lead), tail) => follow(tail, behind(lead))?,
        };
    }
}
