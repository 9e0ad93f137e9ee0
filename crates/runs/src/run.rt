// Pairs in ascending order of their keys, read by place.
ghost use Rattle.std.specs.Prelude.{◌≡◌, ℕ, length};
ghost use Rattle.stores.specs.Pairs.{Pairs, Lawful};
ghost use Rattle.runs.specs.Places.{key_at, value_at};

// A run of pairs whose keys have at most 400 bytes. A key or a value past the last pair reads as empty.
pub trait PairRun {
    ghost pairs: { Self → Pairs };

    ghost lawful: { (s : Self) → Lawful (pairs s) 400 };

    // How many pairs there are.
    fn count(&self) -> usize
        ensures { result ≡ length (pairs self.now) };

    fn key_at(&self, i: usize) -> &[u8]
        ensures { result.now ≡ key_at (pairs self.now) i };

    fn value_at(&self, i: usize) -> &[u8]
        ensures { result.now ≡ value_at (pairs self.now) i };
}
