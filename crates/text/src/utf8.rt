// Well-formed UTF-8, by the Unicode Standard's table of byte sequences.
ghost use Rattle.std.specs.Prelude.{◌≡◌, drop};
ghost use Rattle.text.specs.Rows.{range_of, fits, width_of};
ghost use Rattle.text.specs.Utf8.{sequence_length, unless_zero, inside, is_text};

// Bytes from the first to the second, both counted in.
// Kept: a constant holds no `a..=b`, which counts as a call, so the table has ranges of its own.
#[derive(Clone, Copy)]
pub(crate) struct ByteRange(u8, u8);

impl ByteRange {
    fn contains(self, b: u8) -> bool
        ensures { result ≡ inside (range_of self) b }
    {
        (self.0..=self.1).contains(&b)
    }
}

// A byte behind the first where the first leaves it free.
const TAIL: ByteRange = ByteRange(0x80, 0xBF);

// The table of well-formed byte sequences, in its order: a row has a range for each byte of a sequence.
const ROWS: [&[ByteRange]; 9] = [
    &[ByteRange(0x00, 0x7F)],
    &[ByteRange(0xC2, 0xDF), TAIL],
    &[ByteRange(0xE0, 0xE0), ByteRange(0xA0, 0xBF), TAIL],
    &[ByteRange(0xE1, 0xEC), TAIL, TAIL],
    &[ByteRange(0xED, 0xED), ByteRange(0x80, 0x9F), TAIL],
    &[ByteRange(0xEE, 0xEF), TAIL, TAIL],
    &[ByteRange(0xF0, 0xF0), ByteRange(0x90, 0xBF), TAIL, TAIL],
    &[ByteRange(0xF1, 0xF3), TAIL, TAIL, TAIL],
    &[ByteRange(0xF4, 0xF4), ByteRange(0x80, 0x8F), TAIL, TAIL],
];

// Whether the bytes begin with a sequence of the row.
fn fits(row: &[ByteRange], bytes: &[u8]) -> bool
    ensures { result ≡ fits row.now bytes.now }
{
    row.len() <= bytes.len() && row.iter().zip(bytes).all(|(range, b)| range.contains(*b))
}

// How many bytes a first byte asks for: as many as it has leading ones, and one where it has none.
fn width(b: u8) -> usize
    ensures { result ≡ width_of b }
{
    b.leading_ones().max(1) as usize
}

// How many bytes the well-formed sequence at `at` has, or none if none stands there.
pub fn sequence_len(s: &[u8], at: usize) -> Option<usize>
    ensures { result ≡ unless_zero (sequence_length (drop at s.now)) }
{
    let bytes = s.get(at..)?;
    let n = width(*bytes.first()?);
    let row = ROWS.iter().find(|row| row.len() == n && fits(row, bytes))?;
    Some(row.len())
}

// Whether the bytes are well-formed UTF-8.
pub fn is_text(s: &[u8]) -> bool
    ensures { result ≡ is_text s.now }
{
    str::from_utf8(s).is_ok()
}
