// Paths of nodes.
ghost use Rattle.std.specs.Prelude.{◌≡◌, true, length, take};
ghost use Rattle.paths.specs.Paths.{is_path_text, names_in};

mod convert;
mod make;
mod order;
mod parts;

use crate::inline::Inline;

// The text of a valid path, and the number of its names.
#[derive(Clone, Copy)]
pub struct NodePath {
    text: Inline<255>,
    names: usize,
    ghost valid: { is_path_text (take text.len text.bytes) ≡ true },
    ghost counted: { names ≡ length (names_in (take text.len text.bytes)) },
}
