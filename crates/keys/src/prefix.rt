// The prefix of a path, and the path of a prefix.
ghost use Rattle.std.specs.Prelude.{◌≡◌};
ghost use Rattle.paths.specs.Values.{names_of, path_in};
ghost use Rattle.keys.specs.MetadataKeys.{prefix_of, path_of_prefix};
ghost use Rattle.keys.specs.Values.{prefix_text};

use crate::key::behind_prefix;
use crate::store_key::StorePrefix;
use paths::{NodePath, PathFault};

// The prefix under which all of a node lies in a store: empty for `/`.
pub fn prefix_of(path: &NodePath) -> StorePrefix
    ensures { prefix_text result ≡ prefix_of (names_of path.now) }
{
    let text = behind_prefix(path, b"").unwrap();
    StorePrefix { text }
}

// The path whose prefix this is: `/` for the empty one.
pub fn path_of_prefix(prefix: &StorePrefix) -> Result<NodePath, PathFault>
    ensures { path_in result ≡ path_of_prefix (prefix_text prefix.now) }
{
    match prefix.as_bytes() {
        [] => Ok(NodePath::root()),
        [names @ .., _] => NodePath::root().join(names),
    }
}
