// The kinds of bytes that the grammar of JSON tells apart. Its definitions go by them, and so does the reader; a byte of no kind that may stand there is `None`.

// Where a value is expected: white space, or the first byte of a value.
#[derive(Clone, Copy)]
pub enum Start {
    Blank,
    Quote,
    Minus,
    Zero,
    Positive,
    OpenArray,
    OpenObject,
    LitT,
    LitF,
    LitN,
}

// Where one of two given bytes is expected: white space, or one of the two.
#[derive(Clone, Copy)]
pub enum Punct {
    Space,
    One,
    Two,
}

// What one byte of a longer character may be: a byte from the first number to the second, a hexadecimal digit, `D`, or `C` to `F`.
#[derive(Clone, Copy)]
pub enum Class {
    In(u8, u8),
    Hex,
    IsD,
    CtoF,
}

// The first byte of a character of several bytes, by what the table of well-formed UTF-8 asks of those behind it.
#[derive(Clone, Copy)]
pub enum Lead {
    Two,
    ThreeE0,
    Three,
    ThreeED,
    FourF0,
    Four,
    FourF4,
}

// Inside a string.
#[derive(Clone, Copy)]
pub enum Char {
    Plain,
    EndQuote,
    Back,
    Long(Lead),
}

// Behind a backslash: a letter that stands for one character, or the `u` of a code unit.
#[derive(Clone, Copy)]
pub enum Escape {
    Simple,
    CodeUnit,
}

// The first digit of a code unit: `D`, with which surrogates begin, or another.
#[derive(Clone, Copy)]
pub enum FirstHex {
    FirstD,
    OtherHex,
}

// The second digit behind a `D`: `0` to `7` is no surrogate, `8` to `B` the first of a pair.
#[derive(Clone, Copy)]
pub enum SecondHex {
    Whole,
    High,
}

// How far a number has come: past its minus, its zero, the digits of its whole part, its point, the digits behind that, its `e`, the sign behind that, the digits of its exponent.
#[derive(Clone, Copy)]
pub enum Phase {
    AtMinus,
    AtZero,
    AtWhole,
    AtPoint,
    AtFraction,
    AtE,
    AtSign,
    AtExponent,
}

// Where a byte of a text stands: between or in tokens other than strings, in a string, or in a string behind a backslash.
#[derive(Clone, Copy)]
pub enum Place {
    Between,
    InString,
    Escaped,
}
