// Whether a path leaves room for keys below it.
ghost use Rattle.std.specs.Prelude.{◌≡◌};
ghost use Rattle.paths.specs.Values.{names_of};
ghost use Rattle.keys.specs.MetadataKeys.{prefix_of};
ghost use Rattle.mounts.specs.Fronts.{room_for, front_in};

use keys::{StorePrefix, prefix_of};
use paths::{NodePath, PathFault};
use stores::ReadStore;

// The prefix of a path, to mount the store at; refused where it leaves no byte for a key.
pub fn room_at<S: ReadStore>(store: &S, path: &NodePath) -> Result<StorePrefix, PathFault>
    ensures { front_in result ≡ room_for (S.ReadStore.longest store.now) (prefix_of (names_of path.now)) }
{
    let front = prefix_of(path);
    if front.as_bytes().len() < store.longest_key() {
        Ok(front)
    } else {
        Err(PathFault::OverLimits)
    }
}
