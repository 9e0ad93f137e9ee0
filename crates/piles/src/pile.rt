// Work done through a fence over a mount over a fence, around any store.
ghost use Rattle.std.specs.Prelude.{◌-◌, length};
ghost use Rattle.keys.specs.MetadataKeys.{prefix_of};
ghost use Rattle.keys.specs.Values.{prefix_text};
ghost use Rattle.paths.specs.Values.{names_of};
ghost use Rattle.stores.specs.Pairs.{mounted};
ghost use Rattle.stores.specs.Counts.{Tally};
ghost use Rattle.stores.specs.Meaning.{meaning_of, view};
ghost use Rattle.fences.specs.Guard.{guard};
ghost use Rattle.mounts.specs.Fronts.{room_for, Outside};
ghost use Rattle.piles.specs.Piles.{layered, DoneAt, SetAt};

use crate::fault::PileFault;
use crate::put::Put;
use crate::work::{Work, in_fence};
use fences::{Fence, Rows};
use keys::{StoreFault, StorePrefix};
use mounts::{Mount, room_at};
use paths::{NodePath, PathFault};
use stores::{ListStore, ReadStore, WriteStore, count_children};

// Three layers around a store: a fence, a mount over it at a place, and a fence over the mount. The place is a prefix, or the path of one.
#[derive(Clone, Copy)]
pub struct Layers<'t, P> {
    pub inner: &'t Rows,
    pub place: &'t P,
    pub outer: &'t Rows,
}

impl Layers<'_, StorePrefix> {
    // Work done through the three layers, from the innermost on.
    pub fn work<S: WriteStore, W: Work>(&self, store: &mut S, worker: &mut W) -> W::Answer
        ensures ties { S.WriteStore.ties store.old store.new }
        ensures keeps { Outside (prefix_text self.now.place.now) (S.ReadStore.pairs store.old) (S.ReadStore.pairs store.new) }
        ensures does { W.Work.does worker.old
            (layered self.now.inner.now.rows (prefix_text self.now.place.now) self.now.outer.now.rows (meaning_of S.WriteStore store.old))
            (layered self.now.inner.now.rows (prefix_text self.now.place.now) self.now.outer.now.rows (meaning_of S.WriteStore store.new)) worker.new result }
    {
        let mut fence = Fence::new(store, self.inner);
        in_upper(&mut fence, self.place, self.outer, worker)
    }

    // Counts the children that show through the three layers: the fences hide nothing.
    // Kept: no `Work`, whose promise speaks of what a store means, where a count speaks of the list of its pairs.
    pub fn count_children<S: WriteStore>(
        &self,
        store: &mut S,
        prefix: &[u8],
        name: &mut [u8],
    ) -> Result<usize, StoreFault>
        ensures { Tally (S.ReadStore.longest store.old - length (prefix_text self.now.place.now)) (mounted (prefix_text self.now.place.now) (S.ReadStore.pairs store.old)) prefix.now name.old name.new result }
    {
        let mut low = Fence::new(store, self.inner);
        let mut middle = Mount::new(&mut low, self.place);
        let top = Fence::new(&mut middle, self.outer);
        count_children(&top, prefix, name)
    }
}

impl Layers<'_, NodePath> {
    // The work done with the mount at the path; refused where the path leaves no room for a key.
    pub fn work_at<S: WriteStore, W: Work>(
        &self,
        store: &mut S,
        worker: &mut W,
    ) -> Result<W::Answer, PathFault>
        ensures ties { S.WriteStore.ties store.old store.new }
        ensures does { DoneAt (meaning_of S.WriteStore) (λ p. layered self.now.inner.now.rows p self.now.outer.now.rows) W.Work.does
            (room_for (S.ReadStore.longest store.old) (prefix_of (names_of self.now.place.now))) store.old store.new worker.old worker.new result }
    {
        let front = room_at(store, self.place)?;
        let layers = Layers {
            inner: self.inner,
            place: &front,
            outer: self.outer,
        };
        Ok(layers.work(store, worker))
    }

    // Sets a pair with the mount at the path; refused where the path leaves no room for a key.
    pub fn put<S: WriteStore>(
        &self,
        store: &mut S,
        key: &[u8],
        value: &[u8],
    ) -> Result<(), PileFault>
        ensures ties { S.WriteStore.ties store.old store.new }
        ensures means { SetAt (meaning_of S.WriteStore) (λ p. layered self.now.inner.now.rows p self.now.outer.now.rows)
            (room_for (S.ReadStore.longest store.old) (prefix_of (names_of self.now.place.now))) key.now value.now store.old store.new result }
    {
        let mut put = Put { key, value };
        let answer = self.work_at(store, &mut put)?;
        Ok(answer?)
    }
}

// Through the mount and the outer fence.
// Kept: tried in `work`, and its proof did not close: that the store left when the mount and the fence are gone is tied to the one before.
fn in_upper<S: WriteStore, W: Work>(
    store: &mut S,
    front: &StorePrefix,
    outer: &Rows,
    worker: &mut W,
) -> W::Answer
    ensures ties { S.WriteStore.ties store.old store.new }
    ensures keeps { Outside (prefix_text front.now) (S.ReadStore.pairs store.old) (S.ReadStore.pairs store.new) }
    ensures does { W.Work.does worker.old
        (guard outer.now.rows (view (prefix_text front.now) (meaning_of S.WriteStore store.old)))
        (guard outer.now.rows (view (prefix_text front.now) (meaning_of S.WriteStore store.new))) worker.new result }
{
    let mut mount = Mount::new(store, front);
    in_fence(&mut mount, outer, worker)
}
