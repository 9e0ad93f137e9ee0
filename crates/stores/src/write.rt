// Writing to a store.
ghost use Rattle.std.specs.Prelude.{ℕ, Bool};
ghost use Rattle.text.specs.Bytes.{Bytes};
ghost use Rattle.stores.specs.Meaning.{meaning_of, Set, Erase};

use crate::list::ListStore;
use crate::read::ReadStore;
use keys::StoreFault;

// A store decides by `takes` which values it takes and by `lets` which keys it lets go; a refused call leaves it as it was.
pub trait WriteStore: ListStore {
    ghost takes: { Self → Bytes → ℕ → Bool };

    ghost lets: { Self → Bytes → Bool };

    // what every call leaves: which references a store holds, all the way down
    ghost ties: { Self → Self → Type 0 };

    ghost still: { (s : Self) → ties s s };

    // Gives a key a value.
    fn set(&mut self, key: &[u8], value: &[u8]) -> Result<(), StoreFault>
        ensures ties { ties self.old self.new }
        ensures means { Set key.now value.now (meaning_of Self.WriteStore self.old) (meaning_of Self.WriteStore self.new) result };

    // Removes a key and its value; a key that is not there is granted.
    fn erase(&mut self, key: &[u8]) -> Result<(), StoreFault>
        ensures ties { ties self.old self.new }
        ensures means { Erase key.now (meaning_of Self.WriteStore self.old) (meaning_of Self.WriteStore self.new) result };
}
