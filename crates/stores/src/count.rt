// The children under a prefix, one after the other.
ghost use Rattle.stores.specs.Counts.{Tally};

use crate::list::ListStore;
use crate::read::ReadStore;
use keys::StoreFault;
use paths::Inline;

// How many children there are, each written to the buffer in its turn; the largest number if there are more.
pub fn count_children<S: ListStore>(
    store: &S,
    prefix: &[u8],
    name: &mut [u8],
) -> Result<usize, StoreFault>
    ensures { Tally (S.ReadStore.longest store.now) (S.ReadStore.pairs store.now) prefix.now name.old name.new result }
{
    let mut last = Inline::<400>::of(b"", b"", b"").unwrap();
    let mut count: usize = 0;
    while let Some(n) = store.next_child(prefix, last.as_bytes(), name)? {
        last = Inline::of(&name[..n], b"", b"").unwrap();
        count = count.saturating_add(1);
    }
    Ok(count)
}
