// Rows raised, lowered, and asked for a key.
ghost use Rattle.std.specs.Prelude.{◌≡◌, false};
ghost use Rattle.text.specs.Bytes.{Bytes};
ghost use Rattle.fences.specs.Rows.{covers, fenced, stake_of, stakes, raised, lowered, answered, rows_after};

use crate::table::{Row, Rows};
use keys::{StoreFault, StorePrefix, prefix_of};
use paths::NodePath;
use text::begins_with;

impl Row {
    // Whether the row is raised and the key begins with its prefix.
    fn stops(&self, key: &[u8]) -> bool
        ensures { result ≡ covers (stake_of self.now) key.now }
    {
        self.raised && begins_with(key, self.prefix.as_bytes())
    }
}

impl Rows {
    // All rows lowered.
    pub fn new() -> Rows
        ensures { (k : Bytes) → fenced result.rows k ≡ false }
    {
        let row = Row {
            raised: false,
            prefix: prefix_of(&NodePath::root()),
        };
        Rows { rows: [row; 16] }
    }

    // Gives a row a prefix and raises it.
    pub fn raise(&mut self, row: usize, prefix: &[u8]) -> Result<(), StoreFault>
        ensures answers { result ≡ answered (raised (stakes self.old.rows) row prefix.now) }
        ensures changes { stakes self.new.rows ≡ rows_after (raised (stakes self.old.rows) row prefix.now) (stakes self.old.rows) }
    {
        if row >= self.rows.len() {
            return Err(StoreFault::Row);
        }
        let prefix = StorePrefix::new(prefix).map_err(|_| StoreFault::Row)?;
        self.rows[row] = Row {
            raised: true,
            prefix,
        };
        Ok(())
    }

    // Lowers a row.
    pub fn lower(&mut self, row: usize) -> Result<(), StoreFault>
        ensures answers { result ≡ answered (lowered (stakes self.old.rows) row) }
        ensures changes { stakes self.new.rows ≡ rows_after (lowered (stakes self.old.rows) row) (stakes self.old.rows) }
    {
        if row >= self.rows.len() {
            return Err(StoreFault::Row);
        }
        self.rows[row].raised = false;
        Ok(())
    }

    // Whether a raised row stops the key.
    pub fn stop(&self, key: &[u8]) -> bool
        ensures { result ≡ fenced self.now.rows key.now }
    {
        self.rows.iter().any(|row| row.stops(key))
    }
}
