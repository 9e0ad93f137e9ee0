// Escapes undone, byte by byte.
ghost use Rattle.std.specs.Prelude.{◌≡◌, ◌≤◌};
ghost use Rattle.names.specs.Undone.{hex_of, simple_of, with_digit, is_high, paired, given, after};

// How far an escape has come: none has begun; behind a backslash; so many digits of a code unit are to come, with the value of those before; behind the first of a pair of surrogates, with its value, and behind the next backslash; so many digits of the second are to come, with the first's value and that of the digits before.
#[derive(Clone, Copy)]
pub enum Undoing {
    Plain,
    Back,
    Digits(u8, u32),
    High(u32),
    HighBack(u32),
    LowDigits(u8, u32, u32),
}

// What a byte can give: a byte, or a character by its number.
#[derive(Clone, Copy)]
pub enum Given {
    Byte(u8),
    Code(u32),
}

// The value of a hexadecimal digit.
fn hex_of(b: u8) -> u32
    ensures is { result ≡ hex_of b }
    ensures small { result ≤ 15 }
{
    (b as char).to_digit(16).unwrap_or(0)
}

// The byte that a backslash and this one stand for.
fn simple_of(b: u8) -> u8
    ensures { result ≡ simple_of b }
{
    match b {
        b'b' => 8,
        b'f' => 12,
        b'n' => 10,
        b'r' => 13,
        b't' => 9,
        _ => b,
    }
}

// A code unit with one more digit.
fn with_digit(v: u32, b: u8) -> u32
    ensures { result ≡ with_digit v b }
{
    v % 4096 * 16 + hex_of(b)
}

// Whether it is the first of a pair of surrogates.
fn is_high(v: u32) -> bool
    ensures { result ≡ is_high v }
{
    matches!(v, 0xD800..=0xDBFF)
}

// The character that a pair of surrogates stands for.
fn paired_with(high: u32, low: u32) -> u32
    ensures { result ≡ paired high low }
{
    65536 + high % 1024 * 1024 + low % 1024
}

// What a byte gives, if it does not only go on with an escape.
pub(crate) fn given_by(state: Undoing, b: u8) -> Option<Given>
    ensures { result ≡ given state b }
{
    match state {
        Undoing::Plain => (b != b'\\').then_some(Given::Byte(b)),
        Undoing::Back => (b != b'u').then_some(Given::Byte(simple_of(b))),
        Undoing::Digits(left, _) | Undoing::LowDigits(left, _, _) if left > 1 => None,
        Undoing::Digits(_, v) => {
            let unit = with_digit(v, b);
            (!is_high(unit)).then_some(Given::Code(unit))
        }
        Undoing::LowDigits(_, high, v) => Some(Given::Code(paired_with(high, with_digit(v, b)))),
        Undoing::High(_) | Undoing::HighBack(_) => None,
    }
}

// How far the escape has come behind a byte.
pub(crate) fn state_after(state: Undoing, b: u8) -> Undoing
    ensures { result ≡ after state b }
{
    match state {
        Undoing::Plain if b == b'\\' => Undoing::Back,
        Undoing::Back if b == b'u' => Undoing::Digits(4, 0),
        Undoing::Digits(left, v) if left > 1 => Undoing::Digits(left - 1, with_digit(v, b)),
        Undoing::Digits(_, v) => {
            let unit = with_digit(v, b);
            if is_high(unit) {
                Undoing::High(unit)
            } else {
                Undoing::Plain
            }
        }
        Undoing::High(high) => Undoing::HighBack(high),
        Undoing::HighBack(high) => Undoing::LowDigits(4, high, 0),
        Undoing::LowDigits(left, high, v) if left > 1 => {
            Undoing::LowDigits(left - 1, high, with_digit(v, b))
        }
        Undoing::Plain | Undoing::Back | Undoing::LowDigits(_, _, _) => Undoing::Plain,
    }
}
