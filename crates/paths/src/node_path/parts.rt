// The parent of a path, its name and the number of its names.
ghost use Rattle.std.specs.Prelude.{◌≡◌, length};
ghost use Rattle.paths.specs.Paths.{parent_of, name_of};
ghost use Rattle.paths.specs.Values.{names_of, path_if_any};

use super::NodePath;
use super::make::build;
use crate::slashes::last_slash;

impl NodePath {
    // The path without its last name, or none for `/`.
    pub fn parent(&self) -> Option<NodePath>
        ensures { path_if_any result ≡ parent_of (names_of self.now) }
    {
        if self.is_root() {
            return None;
        }
        let text = self.text.as_bytes();
        let end = last_slash(text);
        if end == 0 {
            return Some(NodePath::root());
        }
        build(&text[0..end], b"", b"", self.names - 1).ok()
    }

    // The last name; of `/` it is empty.
    pub fn name(&self) -> &[u8]
        ensures { result.now ≡ name_of (names_of self.now) }
    {
        let text = self.text.as_bytes();
        let end = last_slash(text);
        &text[end + 1..]
    }

    // The number of its names.
    pub fn depth(&self) -> usize
        ensures { result ≡ length (names_of self.now) }
    {
        self.names
    }
}
