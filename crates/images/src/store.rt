// An image as a store that takes nothing and lets go nothing.
ghost use Rattle.std.specs.Prelude.{◌≡◌, false, refl, unwrap_or};
ghost use Rattle.images.specs.Spells.{listed};
ghost use Rattle.images.specs.Lawful.{image_lawful};

use crate::image::Image;
use crate::records::{RECORD, Record};
use keys::{StoreFault, is_key};
use runs::{PairRun, find};
use stores::{ListStore, ReadStore, WriteStore};

impl PairRun for Image<'_> {
    ghost pairs = { λ s. listed s.bytes.now 0 (unwrap_or s.count 0) };

    ghost lawful = { λ s. image_lawful s.bytes.now s.count s.stands };

    fn count(&self) -> usize {
        self.count.unwrap_or(0)
    }

    fn key_at(&self, i: usize) -> &[u8] {
        if i >= self.count() {
            return b"";
        }
        Record::new(self.bytes, RECORD * i).key()
    }

    fn value_at(&self, i: usize) -> &[u8] {
        if i >= self.count() {
            return b"";
        }
        Record::new(self.bytes, RECORD * i).value()
    }
}

// Kept: as for Shelf; one impl for every run of pairs would have to stand in stores, which lies below runs.
impl ReadStore for Image<'_> {
    ghost pairs = { λ s. listed s.bytes.now 0 (unwrap_or s.count 0) };

    ghost longest = { λ _. 400 };

    ghost lawful = { λ s. image_lawful s.bytes.now s.count s.stands };

    fn longest_key(&self) -> usize {
        400
    }

    fn get(&self, key: &[u8], buf: &mut [u8]) -> Result<Option<usize>, StoreFault> {
        runs::get(self, key, buf)
    }
}

impl ListStore for Image<'_> {
    fn next_key(
        &self,
        prefix: &[u8],
        after: &[u8],
        buf: &mut [u8],
    ) -> Result<Option<usize>, StoreFault> {
        runs::next_key(self, prefix, after, buf)
    }

    fn next_child(
        &self,
        prefix: &[u8],
        after: &[u8],
        buf: &mut [u8],
    ) -> Result<Option<usize>, StoreFault> {
        runs::next_child(self, prefix, after, buf)
    }
}

// No call changes an image.
impl WriteStore for Image<'_> {
    ghost takes = { λ _ _ _. false };

    ghost lets = { λ _ _. false };

    ghost ties = { λ s t. t ≡ s };

    ghost still = { λ _. refl };

    fn set(&mut self, key: &[u8], value: &[u8]) -> Result<(), StoreFault> {
        if !is_key(key) {
            return Err(StoreFault::Malformed);
        }
        Err(StoreFault::NotTaken)
    }

    fn erase(&mut self, key: &[u8]) -> Result<(), StoreFault> {
        if !is_key(key) {
            return Err(StoreFault::Malformed);
        }
        match find(self, key) {
            None => Ok(()),
            Some(_) => Err(StoreFault::NotLetGo),
        }
    }
}
