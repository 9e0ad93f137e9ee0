// A shelf's pairs by place.
ghost use Rattle.shelves.specs.Meant.{pairs_in};
ghost use Rattle.shelves.specs.Holds.{entries_lawful};

use super::Shelf;
use crate::slot::Span;
use runs::PairRun;

impl PairRun for Shelf<'_> {
    ghost pairs = { λ s. pairs_in s };

    ghost lawful = { λ s. entries_lawful s.rows.slots.now s.rows.len s.bytes.now s.rows.ascends };

    fn count(&self) -> usize {
        self.len()
    }

    fn key_at(&self, i: usize) -> &[u8] {
        match self.rows.get(i) {
            Some(slot) => slot.key.as_bytes(),
            None => b"",
        }
    }

    fn value_at(&self, i: usize) -> &[u8] {
        let Some(slot) = self.rows.get(i) else {
            return b"";
        };
        let Span { place, size } = slot.span;
        &self.bytes[place..place + size]
    }
}
