// Pairs set and erased.
ghost use Rattle.stores.specs.Meaning.{Set, Erase};
ghost use Rattle.shelves.specs.Meant.{meaning, Lent};

use super::Shelf;
use crate::lay::slot_at;
use keys::{StoreFault, StoreKey};

impl Shelf<'_> {
    // Gives a key a value, if there is a slot and there are bytes for it.
    pub(super) fn put(&mut self, key: &[u8], value: &[u8]) -> Result<(), StoreFault>
        ensures lent { Lent self.old self.new }
        ensures means { Set key.now value.now (meaning self.old) (meaning self.new) result }
    {
        let key = StoreKey::new(key)?;
        match self.find(&key) {
            Ok(i) => {
                let old = slot_at(&self.rows, i).span.size;
                if value.len() > self.bytes.len() - (self.used - old) {
                    return Err(StoreFault::NotTaken);
                }
                self.resize(i, value);
                Ok(())
            }
            Err(i) => {
                if self.rows.len() >= self.rows.room()
                    || value.len() > self.bytes.len() - self.used
                {
                    return Err(StoreFault::NotTaken);
                }
                self.add(i, key);
                self.resize(i, value);
                Ok(())
            }
        }
    }

    // Removes a key and its value.
    pub(super) fn remove(&mut self, key: &[u8]) -> Result<(), StoreFault>
        ensures lent { Lent self.old self.new }
        ensures means { Erase key.now (meaning self.old) (meaning self.new) result }
    {
        let key = StoreKey::new(key)?;
        match self.find(&key) {
            Ok(i) => {
                self.resize(i, b"");
                self.drop_slot(i);
                Ok(())
            }
            Err(_) => Ok(()),
        }
    }
}
