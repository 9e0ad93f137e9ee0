// What is written to any store is what is read from it afterwards.
ghost use Rattle.std.specs.Prelude.{◌≡◌, ◌++◌, length, drop, IfOk, Some, None, OnOk};

use crate::list::ListStore;
use crate::read::ReadStore;
use crate::write::WriteStore;
use keys::StoreFault;

// Gives a key a value and reads it back; where both are granted, the buffer begins with the value.
pub fn read_back<S: WriteStore>(
    store: &mut S,
    key: &[u8],
    value: &[u8],
    buf: &mut [u8],
) -> Result<Option<usize>, StoreFault>
    ensures ties { S.WriteStore.ties store.old store.new }
    ensures answers { IfOk result (λ o. o ≡ Some (length value.now)) }
    ensures fills { OnOk result (buf.new ≡ value.now ++ drop (length value.now) buf.old) }
{
    store.set(key, value)?;
    store.get(key, buf)
}

// Erases a key and reads it; where both are granted, there is no value.
pub fn read_gone<S: WriteStore>(
    store: &mut S,
    key: &[u8],
    buf: &mut [u8],
) -> Result<Option<usize>, StoreFault>
    ensures ties { S.WriteStore.ties store.old store.new }
    ensures answers { IfOk result (λ o. o ≡ None) }
    ensures keeps { OnOk result (buf.new ≡ buf.old) }
{
    store.erase(key)?;
    store.get(key, buf)
}
