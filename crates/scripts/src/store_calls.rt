// Calls on the store at the top of a pile.
use crate::session::Session;
use keys::StoreFault;
use lines::call::Call;
use printing::push_quoted;
use std::alloc::{AllocError, Global};
use stores::{ListStore, ReadStore, WriteStore};

impl Session {
    // The call, performed on a store and answered; a call on no store is left alone.
    pub(crate) fn perform_on<S: WriteStore>(
        &mut self,
        store: &mut S,
        call: Call<'_>,
    ) -> Result<(), AllocError> {
        let heap = self.heap;
        match call {
            Call::Get(key, n) => {
                let key = key.bytes(heap)?;
                self.find(n, |room| store.get(key.as_slice(), room))
            }
            Call::NextKey(prefix, after, n) => {
                let prefix = prefix.bytes(heap)?;
                let after = after.bytes(heap)?;
                self.find(
                    n,
                    |room| store.next_key(prefix.as_slice(), after.as_slice(), room),
                )
            }
            Call::NextChild(prefix, after, n) => {
                let prefix = prefix.bytes(heap)?;
                let after = after.bytes(heap)?;
                self.find(
                    n,
                    |room| store.next_child(prefix.as_slice(), after.as_slice(), room),
                )
            }
            Call::Set(key, value) => {
                let key = key.bytes(heap)?;
                let value = value.bytes(heap)?;
                self.answers
                    .push_done(store.set(key.as_slice(), value.as_slice()))
            }
            Call::Erase(key) => {
                let key = key.bytes(heap)?;
                self.answers.push_done(store.erase(key.as_slice()))
            }
            Call::Dump => self.dump(store),
            _ => Ok(()),
        }
    }

    // What a search gives in a buffer of n bytes, or of all the room.
    fn find<F: FnOnce(&mut [u8]) -> Result<Option<usize>, StoreFault>>(
        &mut self,
        n: usize,
        search: F,
    ) -> Result<(), AllocError>
        requires { F.IsAlwaysCallable search }
    {
        let n = n.min(self.room.len());
        let answer = search(&mut self.room[..n]);
        self.answers.push_found(self.room.as_slice(), answer)
    }

    // All pairs in the order of their keys: how many, and a line for each.
    fn dump<S: ListStore>(&mut self, store: &S) -> Result<(), AllocError> {
        let mut lines = Vec::new(self.heap);
        let mut after = Vec::new(self.heap);
        // Kept: the number of turns is the number of keys, which the answer begins with.
        for count in 0..u64::MAX {
            let Some(key) = key_after(self.heap, store, after.as_slice())? else {
                return self.push_dump(count, lines.as_slice());
            };
            self.push_pair(store, key.as_slice(), &mut lines)?;
            after = key;
        }
        self.push_dump(u64::MAX, lines.as_slice())
    }

    fn push_dump(&mut self, count: u64, lines: &[u8]) -> Result<(), AllocError> {
        let head = format!(in self.heap; "ok {count}\n")?;
        self.answers.push_text(head.as_bytes())?;
        self.answers.push_text(lines)
    }

    // A line with a key and its value.
    // Kept: a key that was listed is well formed and has a value, and the room is as large as any base's bytes, so neither none nor a refusal needs an answer of its own.
    fn push_pair<S: ReadStore>(
        &mut self,
        store: &S,
        key: &[u8],
        lines: &mut Vec<u8>,
    ) -> Result<(), AllocError> {
        let n = match store.get(key, self.room.as_mut_slice()) {
            Ok(Some(n)) => n.min(self.room.len()),
            Ok(None) | Err(_) => 0,
        };
        push_quoted(lines, key)?;
        lines.push(b' ')?;
        push_quoted(lines, &self.room[..n])?;
        lines.push(b'\n')?;
        Ok(())
    }
}

// The next key of a store, of all that it has.
fn key_after<S: ListStore>(
    heap: Global,
    store: &S,
    after: &[u8],
) -> Result<Option<Vec<u8>>, AllocError> {
    let mut key = vec![in heap; 0u8; store.longest_key()]?;
    match store.next_key(b"", after, key.as_mut_slice()) {
        Ok(Some(n)) => {
            key.truncate(n);
            Ok(Some(key))
        }
        Ok(None) | Err(_) => Ok(None),
    }
}
