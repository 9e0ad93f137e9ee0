// Paths to rows.
ghost use Rattle.std.specs.Prelude.{◌≡◌, true, drop};
ghost use Rattle.paths.specs.Held.{all_zero};
ghost use Rattle.paths.specs.Paths.{rendered};
ghost use Rattle.paths.specs.Values.{names_of, row_text};

use super::NodePath;
use crate::path_row::PathRow;

// The path's text, with zeros behind it.
impl From<&NodePath> for PathRow {
    ghost from_gives = { λ path row. (row_text row ≡ rendered (names_of path.now)) × (all_zero (drop row.len row.bytes) ≡ true) };

    fn from(path: &NodePath) -> PathRow {
        PathRow {
            bytes: path.text.bytes,
            len: path.text.len as u8,
        }
    }
}
