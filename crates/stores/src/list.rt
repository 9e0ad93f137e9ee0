// Listing what is under a prefix.
ghost use Rattle.std.specs.Prelude.{◌≡◌, length};
ghost use Rattle.stores.specs.Answers.{key_after, child_after, answer, filled};

use crate::read::ReadStore;
use keys::StoreFault;

// Keys and children come in the order of their bytes.
pub trait ListStore: ReadStore {
    // The least key under the prefix that comes after the given bytes, written to the front of the buffer.
    fn next_key(
        &self,
        prefix: &[u8],
        after: &[u8],
        buf: &mut [u8],
    ) -> Result<Option<usize>, StoreFault>
        ensures answers { result ≡ answer (key_after (Self.ReadStore.longest self.now) (Self.ReadStore.pairs self.now) prefix.now after.now (length buf.old)) }
        ensures fills { buf.new ≡ filled (key_after (Self.ReadStore.longest self.now) (Self.ReadStore.pairs self.now) prefix.now after.now (length buf.old)) buf.old };

    // The least text after the given bytes that stands between the prefix and the next `/` of some key.
    fn next_child(
        &self,
        prefix: &[u8],
        after: &[u8],
        buf: &mut [u8],
    ) -> Result<Option<usize>, StoreFault>
        ensures answers { result ≡ answer (child_after (Self.ReadStore.longest self.now) (Self.ReadStore.pairs self.now) prefix.now after.now (length buf.old)) }
        ensures fills { buf.new ≡ filled (child_after (Self.ReadStore.longest self.now) (Self.ReadStore.pairs self.now) prefix.now after.now (length buf.old)) buf.old };
}
