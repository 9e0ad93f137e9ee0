// Reading from a store.
ghost use Rattle.std.specs.Prelude.{◌≡◌, ℕ, length};
ghost use Rattle.stores.specs.Pairs.{Pairs, Lawful};
ghost use Rattle.stores.specs.Answers.{got, answer, filled};

use keys::StoreFault;

// A store's pairs of key and value, and its longest key, are what its members say; every value of its type is lawful.
pub trait ReadStore {
    ghost pairs: { Self → Pairs };

    ghost longest: { Self → ℕ };

    ghost lawful: { (s : Self) → Lawful (pairs s) (longest s) };

    // How many bytes a key may have.
    fn longest_key(&self) -> usize
        ensures { result ≡ longest self.now };

    // The value of a key, written to the front of the buffer; answers its length.
    fn get(&self, key: &[u8], buf: &mut [u8]) -> Result<Option<usize>, StoreFault>
        ensures answers { result ≡ answer (got (longest self.now) (pairs self.now) key.now (length buf.old)) }
        ensures fills { buf.new ≡ filled (got (longest self.now) (pairs self.now) key.now (length buf.old)) buf.old };
}
