// What a word stands for.
ghost use Rattle.std.specs.Prelude.{◌≡◌, true, is_some};
ghost use Rattle.lines.specs.Words.{spelled};

mod spelling;

// A word that writes bytes: as they are, or in hexadecimal digits behind a `#`.
#[derive(Clone, Copy, Debug)]
pub struct Word<'a> {
    text: &'a [u8],
    ghost spells: { is_some (spelled text.now) ≡ true },
}
