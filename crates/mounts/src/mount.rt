// A view of any store through a prefix.
ghost use Rattle.std.specs.Prelude.{◌≡◌, ◌+◌, ◌-◌, ◌<◌, ◌++◌, length, take, MatchResult, refl};
ghost use Rattle.keys.specs.Values.{prefix_text};
ghost use Rattle.stores.specs.Pairs.{mounted};
ghost use Rattle.mounts.specs.Fronts.{lawful_under, Outside};

use crate::parts::{hand_on, joined_cut, list_none};
use keys::{StoreFault, StorePrefix};
use paths::Inline;
use stores::{ListStore, ReadStore, WriteStore};

// The store below, and the prefix of all keys that show.
#[derive(Drop)]
pub struct Mount<'s, 't, S> {
    store: &'s mut S,
    front: &'t StorePrefix,
}

impl<'s, 't, S> Mount<'s, 't, S> {
    // The store seen through the prefix.
    pub fn new(store: &'s mut S, front: &'t StorePrefix) -> Mount<'s, 't, S>
        ensures holds { (result.store.now ≡ store.old) × (result.front.now ≡ front.now) }
        ensures same { result.store.ghost_name ≡ store.entry.ghost_name }
    {
        Mount { store, front }
    }
}

impl<S> Mount<'_, '_, S> {
    // A text with the prefix in front; one of more than N bytes is malformed.
    fn whole<const N: usize>(&self, text: &[u8]) -> Result<Inline<N>, StoreFault>
        ensures { MatchResult result (λ w. take w.len w.bytes ≡ prefix_text self.now.front.now ++ text.now) (λ e. (e ≡ StoreFault.Malformed) × (N < length (prefix_text self.now.front.now) + length text.now)) }
    {
        Inline::of(self.front.as_bytes(), b"", text).ok_or(StoreFault::Malformed)
    }
}

impl<S: ReadStore> ReadStore for Mount<'_, '_, S> {
    ghost pairs = { λ m. mounted (prefix_text m.front.now) (S.ReadStore.pairs m.store.now) };

    ghost longest = { λ m. S.ReadStore.longest m.store.now - length (prefix_text m.front.now) };

    ghost lawful = { λ m. lawful_under m.front.now (S.ReadStore.lawful m.store.now) };

    fn longest_key(&self) -> usize {
        self.store
            .longest_key()
            .saturating_sub(self.front.as_bytes().len())
    }

    fn get(&self, key: &[u8], buf: &mut [u8]) -> Result<Option<usize>, StoreFault> {
        let whole = self.whole::<400>(key)?;
        self.store.get(whole.as_bytes(), buf)
    }
}

impl<S: ListStore> ListStore for Mount<'_, '_, S> {
    fn next_key(
        &self,
        prefix: &[u8],
        after: &[u8],
        buf: &mut [u8],
    ) -> Result<Option<usize>, StoreFault> {
        let front = self.front.as_bytes();
        if self.store.longest_key() <= front.len() {
            return list_none(prefix);
        }
        let whole = self.whole::<401>(prefix)?;
        let from = joined_cut(front, after);
        // Kept: no heap in the engine, and no store has a longer key.
        let mut key = [0u8; 400];
        let seen = self
            .store
            .next_key(whole.as_bytes(), from.as_bytes(), &mut key);
        hand_on(seen, &key, front.len(), buf)
    }

    fn next_child(
        &self,
        prefix: &[u8],
        after: &[u8],
        buf: &mut [u8],
    ) -> Result<Option<usize>, StoreFault> {
        if self.store.longest_key() <= self.front.as_bytes().len() {
            return list_none(prefix);
        }
        let whole = self.whole::<401>(prefix)?;
        self.store.next_child(whole.as_bytes(), after, buf)
    }
}

impl<S: WriteStore> WriteStore for Mount<'_, '_, S> {
    ghost takes = { λ m k n. S.WriteStore.takes m.store.now (prefix_text m.front.now ++ k) n };

    ghost lets = { λ m k. S.WriteStore.lets m.store.now (prefix_text m.front.now ++ k) };

    // what lies outside the prefix is left as it was
    ghost ties = { λ m n. (n.store.ghost_name ≡ m.store.ghost_name) × (n.front.now ≡ m.front.now) × S.WriteStore.ties m.store.now n.store.now × Outside (prefix_text m.front.now) (S.ReadStore.pairs m.store.now) (S.ReadStore.pairs n.store.now) };

    ghost still = { λ m. (refl, refl, S.WriteStore.still m.store.now, λ j e. refl) };

    fn set(&mut self, key: &[u8], value: &[u8]) -> Result<(), StoreFault> {
        let whole = self.whole::<400>(key)?;
        self.store.set(whole.as_bytes(), value)
    }

    fn erase(&mut self, key: &[u8]) -> Result<(), StoreFault> {
        let whole = self.whole::<400>(key)?;
        self.store.erase(whole.as_bytes())
    }
}
