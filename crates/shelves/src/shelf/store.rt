// The shelf as a store.
ghost use Rattle.std.specs.Prelude.{refl};
ghost use Rattle.shelves.specs.Meant.{pairs_in, meaning, Lent};
ghost use Rattle.shelves.specs.Holds.{entries_lawful};

use super::Shelf;
use keys::StoreFault;
use runs::{PairRun, get, next_child, next_key};
use stores::{ListStore, ReadStore, WriteStore};

// Kept: as for Image; one impl for every run of pairs would have to stand in stores, which lies below runs.
impl ReadStore for Shelf<'_> {
    ghost pairs = { λ s. pairs_in s };

    ghost longest = { λ _. 400 };

    ghost lawful = { λ s. entries_lawful s.rows.slots.now s.rows.len s.bytes.now s.rows.ascends };

    fn longest_key(&self) -> usize {
        400
    }

    fn get(&self, key: &[u8], buf: &mut [u8]) -> Result<Option<usize>, StoreFault> {
        get(self, key, buf)
    }
}

impl ListStore for Shelf<'_> {
    fn next_key(
        &self,
        prefix: &[u8],
        after: &[u8],
        buf: &mut [u8],
    ) -> Result<Option<usize>, StoreFault> {
        next_key(self, prefix, after, buf)
    }

    fn next_child(
        &self,
        prefix: &[u8],
        after: &[u8],
        buf: &mut [u8],
    ) -> Result<Option<usize>, StoreFault> {
        next_child(self, prefix, after, buf)
    }
}

// A pair is taken exactly if the pairs then fit the slots and the bytes; every key is let go.
impl WriteStore for Shelf<'_> {
    ghost takes = { λ s. (meaning s).takes };

    ghost lets = { λ s. (meaning s).lets };

    ghost ties = { λ s t. Lent s t };

    ghost still = { λ s. (refl, refl, refl, refl) };

    fn set(&mut self, key: &[u8], value: &[u8]) -> Result<(), StoreFault> {
        self.put(key, value)
    }

    fn erase(&mut self, key: &[u8]) -> Result<(), StoreFault> {
        self.remove(key)
    }
}
