// Work that can be done on any store, and done through a layer around it. Each function makes one layer, and says of the store what is left when the layer is gone.
ghost use Rattle.std.specs.Prelude.{◌≡◌};
ghost use Rattle.keys.specs.Values.{prefix_text};
ghost use Rattle.stores.specs.Meaning.{Meaning, meaning_of, view};
ghost use Rattle.fences.specs.Guard.{guard};
ghost use Rattle.mounts.specs.Fronts.{Outside};

use fences::{Fence, Rows};
use keys::StorePrefix;
use mounts::Mount;
use stores::{ListStore, ReadStore, WriteStore};

// What is done is told by the worker before, the store's meaning before and after, the worker after and the answer.
// Kept: the work takes a store of any type, which no closure does, so it is a method of a trait.
pub trait Work {
    type Answer;

    ghost does: { Self → Meaning → Meaning → Self → Self.Answer → Type 0 };

    fn work<T: WriteStore>(&mut self, store: &mut T) -> Self::Answer
        ensures ties { T.WriteStore.ties store.old store.new }
        ensures does { does self.old (meaning_of T.WriteStore store.old) (meaning_of T.WriteStore store.new) self.new result };
}

// Through a fence.
// Kept: a function for each layer, since a layer's type depends on its store's, and an associated type takes no parameter.
pub fn in_fence<S: WriteStore, W: Work>(store: &mut S, table: &Rows, worker: &mut W) -> W::Answer
    ensures ties { S.WriteStore.ties store.old store.new }
    ensures does { W.Work.does worker.old (guard table.now.rows (meaning_of S.WriteStore store.old)) (guard table.now.rows (meaning_of S.WriteStore store.new)) worker.new result }
{
    let mut fence = Fence::new(store, table);
    worker.work(&mut fence)
}

// Through a mount at a prefix.
pub fn in_mount<S: WriteStore, W: Work>(
    store: &mut S,
    front: &StorePrefix,
    worker: &mut W,
) -> W::Answer
    ensures ties { S.WriteStore.ties store.old store.new }
    ensures keeps { Outside (prefix_text front.now) (S.ReadStore.pairs store.old) (S.ReadStore.pairs store.new) }
    ensures does { W.Work.does worker.old (view (prefix_text front.now) (meaning_of S.WriteStore store.old)) (view (prefix_text front.now) (meaning_of S.WriteStore store.new)) worker.new result }
{
    let mut mount = Mount::new(store, front);
    worker.work(&mut mount)
}
