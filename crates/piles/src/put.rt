// A pair set through a layer around any store.
ghost use Rattle.std.specs.Prelude.{◌≡◌};
ghost use Rattle.keys.specs.MetadataKeys.{prefix_of};
ghost use Rattle.paths.specs.Values.{names_of};
ghost use Rattle.stores.specs.Meaning.{Set, meaning_of, view};
ghost use Rattle.fences.specs.Guard.{guard};
ghost use Rattle.mounts.specs.Fronts.{room_for};
ghost use Rattle.piles.specs.Piles.{SetAt};

use crate::fault::PileFault;
use crate::work::{Work, in_fence, in_mount};
use fences::Rows;
use keys::StoreFault;
use mounts::room_at;
use paths::NodePath;
use stores::{ListStore, ReadStore, WriteStore};

// A key and the value to give it.
#[derive(Drop)]
pub struct Put<'k, 'v> {
    pub key: &'k [u8],
    pub value: &'v [u8],
}

impl Work for Put<'_, '_> {
    type Answer = Result<(), StoreFault>;

    ghost does = { λ p m n q r. Set p.key.now p.value.now m n r };

    fn work<T: WriteStore>(&mut self, store: &mut T) -> Result<(), StoreFault> {
        store.set(self.key, self.value)
    }
}

// Sets a pair through a fence around the store.
pub fn put_fenced<S: WriteStore>(
    store: &mut S,
    table: &Rows,
    key: &[u8],
    value: &[u8],
) -> Result<(), StoreFault>
    ensures ties { S.WriteStore.ties store.old store.new }
    ensures means { Set key.now value.now (guard table.now.rows (meaning_of S.WriteStore store.old)) (guard table.now.rows (meaning_of S.WriteStore store.new)) result }
{
    let mut put = Put { key, value };
    in_fence(store, table, &mut put)
}

// Sets a pair through a mount at a path; refused where the path leaves no room for a key.
pub fn put_mounted<S: WriteStore>(
    store: &mut S,
    path: &NodePath,
    key: &[u8],
    value: &[u8],
) -> Result<(), PileFault>
    ensures ties { S.WriteStore.ties store.old store.new }
    ensures means { SetAt (meaning_of S.WriteStore) view (room_for (S.ReadStore.longest store.old) (prefix_of (names_of path.now))) key.now value.now store.old store.new result }
{
    let mut put = Put { key, value };
    let front = room_at(store, path)?;
    Ok(in_mount(store, &front, &mut put)?)
}
