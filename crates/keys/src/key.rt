// The keys under which a node's metadata and its chunks lie in a store.
ghost use Rattle.std.specs.Prelude.{◌≡◌, ◌<◌, ◌++◌, length, take, MatchOption};
ghost use Rattle.keys.specs.MetadataKeys.{prefix_of, metadata_key, data_key};
ghost use Rattle.paths.specs.Values.{names_of};
ghost use Rattle.keys.specs.Values.{key_text, key_in};

use crate::fault::StoreFault;
use crate::file::MetadataFile;
use crate::store_key::{MAX_KEY, StoreKey};
use paths::{Inline, NodePath};

// The key of one of a node's metadata files: the path without its first `/`, then `/` and the file's name.
pub fn meta_key(path: &NodePath, file: MetadataFile) -> StoreKey
    ensures { key_text result ≡ metadata_key (names_of path.now) file }
{
    let text = behind_prefix(path, file.name()).unwrap();
    StoreKey { text }
}

// The key of an array's chunk: the path without its first `/`, then `/` and the chunk's own key.
pub fn data_key(path: &NodePath, chunk_key: &[u8]) -> Result<StoreKey, StoreFault>
    ensures { key_in result ≡ data_key (names_of path.now) chunk_key.now }
{
    let key = behind_prefix::<MAX_KEY>(path, chunk_key).ok_or(StoreFault::Malformed)?;
    StoreKey::new(key.as_bytes())
}

// A path's prefix and a text behind it, or none if they are longer than N bytes.
pub(crate) fn behind_prefix<const N: usize>(path: &NodePath, rest: &[u8]) -> Option<Inline<N>>
    ensures { MatchOption result (N < length (prefix_of (names_of path.now) ++ rest.now)) (λ v. take v.len v.bytes ≡ prefix_of (names_of path.now) ++ rest.now) }
{
    if path.is_root() {
        return Inline::of(b"", b"", rest);
    }
    let text = path.as_bytes();
    Inline::of(&text[1..], b"/", rest)
}
