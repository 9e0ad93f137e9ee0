// A store whose raised rows refuse what is under their prefixes.
ghost use Rattle.std.specs.Prelude.{◌≡◌, not, ◌&&◌, refl};
ghost use Rattle.stores.specs.Answers.{got, answer};
ghost use Rattle.fences.specs.Rows.{fenced};
ghost use Rattle.fences.specs.Guard.{presence};

use crate::table::Rows;
use keys::StoreFault;
use stores::{ListStore, ReadStore, WriteStore};

// The store below, and the rows. Reading and listing are the store's own.
#[derive(Drop)]
pub struct Fence<'s, 't, S> {
    store: &'s mut S,
    table: &'t Rows,
}

impl<S: ReadStore> ReadStore for Fence<'_, '_, S> {
    ghost pairs = { λ f. S.ReadStore.pairs f.store.now };

    ghost longest = { λ f. S.ReadStore.longest f.store.now };

    ghost lawful = { λ f. S.ReadStore.lawful f.store.now };

    fn longest_key(&self) -> usize {
        self.store.longest_key()
    }

    fn get(&self, key: &[u8], buf: &mut [u8]) -> Result<Option<usize>, StoreFault> {
        self.store.get(key, buf)
    }
}

impl<S: ListStore> ListStore for Fence<'_, '_, S> {
    fn next_key(
        &self,
        prefix: &[u8],
        after: &[u8],
        buf: &mut [u8],
    ) -> Result<Option<usize>, StoreFault> {
        self.store.next_key(prefix, after, buf)
    }

    fn next_child(
        &self,
        prefix: &[u8],
        after: &[u8],
        buf: &mut [u8],
    ) -> Result<Option<usize>, StoreFault> {
        self.store.next_child(prefix, after, buf)
    }
}

impl<'s, 't, S> Fence<'s, 't, S> {
    // The rows around the store.
    pub fn new(store: &'s mut S, table: &'t Rows) -> Fence<'s, 't, S>
        ensures holds { (result.store.now ≡ store.old) × (result.table.now ≡ table.now) }
        ensures same { result.store.ghost_name ≡ store.entry.ghost_name }
    {
        Fence { store, table }
    }
}

impl<S: ReadStore> Fence<'_, '_, S> {
    // Whether a key has a value: one longer than the buffer is there.
    fn present(&self, key: &[u8]) -> Result<bool, StoreFault>
        ensures { result ≡ presence (answer (got (S.ReadStore.longest self.now.store.now) (S.ReadStore.pairs self.now.store.now) key.now 0)) }
    {
        match self.store.get(key, &mut []) {
            Err(StoreFault::Longer) => Ok(true),
            found => Ok(found?.is_some()),
        }
    }
}

// A key that a raised row covers is refused, unless it is malformed, or is to be erased and is not there.
impl<S: WriteStore> WriteStore for Fence<'_, '_, S> {
    ghost takes = { λ f k n. not (fenced f.table.now.rows k) && S.WriteStore.takes f.store.now k n };

    ghost lets = { λ f k. not (fenced f.table.now.rows k) && S.WriteStore.lets f.store.now k };

    ghost ties = { λ f g. (g.store.ghost_name ≡ f.store.ghost_name) × (g.table.now ≡ f.table.now) × S.WriteStore.ties f.store.now g.store.now };

    ghost still = { λ f. (refl, refl, S.WriteStore.still f.store.now) };

    fn set(&mut self, key: &[u8], value: &[u8]) -> Result<(), StoreFault> {
        if self.table.stop(key) {
            self.present(key)?;
            return Err(StoreFault::NotTaken);
        }
        self.store.set(key, value)
    }

    fn erase(&mut self, key: &[u8]) -> Result<(), StoreFault> {
        if !self.table.stop(key) {
            return self.store.erase(key);
        }
        if self.present(key)? {
            Err(StoreFault::NotLetGo)
        } else {
            Ok(())
        }
    }
}
