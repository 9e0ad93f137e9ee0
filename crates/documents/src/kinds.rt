// What a byte is, by the place where it is met.
ghost use Rattle.std.specs.Prelude.{◌≡◌, ℕ, Bool, ◌==◌};
ghost use Rattle.grammar.specs.Numbers.{next, may_end};
ghost use Rattle.grammar.specs.Terminals.{is_blank, start_of, char_of, behind, escape_of, first_of, second_of, fits};

use grammar::{Char, Class, Escape, FirstHex, Lead, Phase, SecondHex, Start};

// A byte behind the first of a longer character, where the first leaves it free.
const TAIL: Class = Class::In(0x80, 0xBF);

// Whether it is white space.
pub fn is_blank(b: u8) -> bool
    ensures { result ≡ is_blank b }
{
    b == b' ' || b == b'\t' || b == b'\n' || b == b'\r'
}

// Where a value is expected.
pub(crate) fn start_of(b: u8) -> Option<Start>
    ensures { result ≡ start_of b }
{
    match b {
        b' ' | b'\t' | b'\n' | b'\r' => Some(Start::Blank),
        b'"' => Some(Start::Quote),
        b'-' => Some(Start::Minus),
        b'0' => Some(Start::Zero),
        b'1'..=b'9' => Some(Start::Positive),
        b'[' => Some(Start::OpenArray),
        b'{' => Some(Start::OpenObject),
        b't' => Some(Start::LitT),
        b'f' => Some(Start::LitF),
        b'n' => Some(Start::LitN),
        _ => None,
    }
}

// Inside a string.
pub(crate) fn char_of(b: u8) -> Option<Char>
    ensures { result ≡ char_of b }
{
    match b {
        b'"' => Some(Char::EndQuote),
        b'\\' => Some(Char::Back),
        32..=127 => Some(Char::Plain),
        0xC2..=0xDF => Some(Char::Long(Lead::Two)),
        0xE0 => Some(Char::Long(Lead::ThreeE0)),
        0xE1..=0xEC | 0xEE..=0xEF => Some(Char::Long(Lead::Three)),
        0xED => Some(Char::Long(Lead::ThreeED)),
        0xF0 => Some(Char::Long(Lead::FourF0)),
        0xF1..=0xF3 => Some(Char::Long(Lead::Four)),
        0xF4 => Some(Char::Long(Lead::FourF4)),
        _ => None,
    }
}

// Behind a backslash.
pub(crate) fn escape_of(b: u8) -> Option<Escape>
    ensures { result ≡ escape_of b }
{
    match b {
        b'"' | b'\\' | b'/' | b'b' | b'f' | b'n' | b'r' | b't' => Some(Escape::Simple),
        b'u' => Some(Escape::CodeUnit),
        _ => None,
    }
}

// The first digit of a code unit.
pub(crate) fn first_of(b: u8) -> Option<FirstHex>
    ensures { result ≡ first_of b }
{
    match b {
        b'D' | b'd' => Some(FirstHex::FirstD),
        _ if b.is_ascii_hexdigit() => Some(FirstHex::OtherHex),
        _ => None,
    }
}

// The second digit of a code unit that begins with `D`.
pub(crate) fn second_of(b: u8) -> Option<SecondHex>
    ensures { result ≡ second_of b }
{
    match b {
        b'0'..=b'7' => Some(SecondHex::Whole),
        b'8' | b'9' | b'A' | b'B' | b'a' | b'b' => Some(SecondHex::High),
        _ => None,
    }
}

// The classes of the bytes behind the first one of a longer character.
pub(crate) fn behind(lead: Lead) -> &'static [Class]
    ensures { result.now ≡ behind lead }
{
    match lead {
        Lead::Two => &[TAIL],
        Lead::ThreeE0 => &[Class::In(0xA0, 0xBF), TAIL],
        Lead::Three => &[TAIL, TAIL],
        Lead::ThreeED => &[Class::In(0x80, 0x9F), TAIL],
        Lead::FourF0 => &[Class::In(0x90, 0xBF), TAIL, TAIL],
        Lead::Four => &[TAIL, TAIL, TAIL],
        Lead::FourF4 => &[Class::In(0x80, 0x8F), TAIL, TAIL],
    }
}

// What a byte can be measured by: another byte, or a class of bytes.
pub(crate) trait Expected: Copy {
    ghost meets: { Self → ℕ → Bool };

    fn is_met_by(self, b: u8) -> bool
        ensures { result ≡ meets self b };
}

impl Expected for u8 {
    ghost meets = { λ c b. b == c };

    fn is_met_by(self, b: u8) -> bool {
        b == self
    }
}

impl Expected for Class {
    ghost meets = { fits };

    fn is_met_by(self, b: u8) -> bool {
        match self {
            Class::In(low, high) => (low..=high).contains(&b),
            Class::Hex => b.is_ascii_hexdigit(),
            Class::IsD => b == b'D' || b == b'd',
            Class::CtoF => matches!(b, b'C'..=b'F' | b'c'..=b'f'),
        }
    }
}

// The phase of a number that has come so far and goes on with it.
pub(crate) fn next_phase(phase: Phase, b: u8) -> Option<Phase>
    ensures { result ≡ next phase b }
{
    match (phase, b) {
        (Phase::AtMinus, b'0') => Some(Phase::AtZero),
        (Phase::AtMinus | Phase::AtWhole, b'1'..=b'9') => Some(Phase::AtWhole),
        (Phase::AtWhole, b'0') => Some(Phase::AtWhole),
        (Phase::AtZero | Phase::AtWhole, b'.') => Some(Phase::AtPoint),
        (Phase::AtPoint | Phase::AtFraction, b'0'..=b'9') => Some(Phase::AtFraction),
        (Phase::AtZero | Phase::AtWhole | Phase::AtFraction, b'e' | b'E') => Some(Phase::AtE),
        (Phase::AtE, b'+' | b'-') => Some(Phase::AtSign),
        (Phase::AtE | Phase::AtSign | Phase::AtExponent, b'0'..=b'9') => Some(Phase::AtExponent),
        _ => None,
    }
}

// Whether a number may end here.
pub(crate) fn may_end(phase: Phase) -> bool
    ensures { result ≡ may_end phase }
{
    matches!(
        phase,
        Phase::AtZero | Phase::AtWhole | Phase::AtFraction | Phase::AtExponent
    )
}
