// A path as it lies in a slot or a run: the same memory without the promise that it is valid.
ghost use Rattle.std.specs.Prelude.{◌≡◌};
ghost use Rattle.paths.specs.Paths.{path_of};
ghost use Rattle.paths.specs.Values.{path_in, row_text};

use crate::fault::PathFault;
use crate::node_path::NodePath;

// Kept: a row is memory that nothing is known of, so it is no Inline, whose length and zeros are known.
#[derive(Clone, Copy)]
pub struct PathRow {
    pub bytes: [u8; 255],
    pub len: u8,
}

impl PathRow {
    // The first bytes of the row, as many as its length says.
    pub fn as_bytes(&self) -> &[u8]
        ensures { result.now ≡ row_text self.now }
    {
        &self.bytes[..self.len as usize]
    }
}

// The path that a row holds, if it holds one.
impl TryFrom<&PathRow> for NodePath {
    type Error = PathFault;

    ghost try_from_gives = { λ row result. path_in result ≡ path_of (row_text row.now) };

    fn try_from(row: &PathRow) -> Result<NodePath, PathFault> {
        NodePath::new(row.as_bytes())
    }
}
