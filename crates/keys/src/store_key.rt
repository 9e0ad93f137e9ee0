// Keys of a store, and prefixes of keys.
ghost use Rattle.std.specs.Prelude.{◌≡◌, true, take};
ghost use Rattle.keys.specs.Keys.{is_key, is_prefix};

mod make;
mod prefix;

pub use make::{is_key, is_prefix};
use paths::Inline;

// The most bytes of a key.
pub const MAX_KEY: usize = 400;

// The most bytes of a prefix: those of a key, and a `/`.
pub const MAX_PREFIX: usize = 401;

// Kept: two types of one field, whose functions are shared; they differ by a `bool` as well, and a struct with a ghost field takes no `bool` const parameter.

// A key: 1 to 400 bytes of text, no `/` at either end and no `//`.
#[derive(Clone, Copy)]
pub struct StoreKey {
    pub(crate) text: Inline<MAX_KEY>,
    ghost well: { is_key (take text.len text.bytes) ≡ true },
}

// A prefix: empty, or a key and `/`.
#[derive(Clone, Copy)]
pub struct StorePrefix {
    pub(crate) text: Inline<MAX_PREFIX>,
    ghost well: { is_prefix (take text.len text.bytes) ≡ true },
}
