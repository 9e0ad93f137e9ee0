// What holds of every store, and a pair set in it.
ghost use Rattle.std.specs.Prelude.{◌≡◌, ◌≤◌, Ok};
ghost use Rattle.stores.specs.Pairs.{Ascends, inserted};

use crate::list::ListStore;
use crate::read::ReadStore;
use crate::write::WriteStore;
use keys::StoreFault;

// The longest key of every store has at most 400 bytes, and its pairs ascend by key.
pub fn longest_of<S: ReadStore>(store: &S) -> usize
    ensures longest { result ≡ S.ReadStore.longest store.now }
    ensures short { result ≤ 400 }
    ensures ascends { Ascends (S.ReadStore.pairs store.now) }
{
    store.longest_key()
}

// Gives a key a value; where it is granted, the pair is in and nothing else has changed.
pub fn put<S: WriteStore>(store: &mut S, key: &[u8], value: &[u8]) -> Result<(), StoreFault>
    ensures ties { S.WriteStore.ties store.old store.new }
    ensures pairs { result ≡ Ok tt → S.ReadStore.pairs store.new ≡ inserted key.now value.now (S.ReadStore.pairs store.old) }
{
    store.set(key, value)
}
