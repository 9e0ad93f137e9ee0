// Slots sought, and where their values begin.
ghost use Rattle.std.specs.Prelude.{◌≡◌, take};
ghost use Rattle.table.specs.Order.{Located};
ghost use Rattle.shelves.specs.Slots.{slot, slot_before, total};

use super::Shelf;
use crate::slot::{Slot, Span};
use keys::StoreKey;

impl Shelf<'_> {
    // Where the slot of a key stands, or where it would.
    pub(super) fn find(&self, key: &StoreKey) -> Result<usize, usize>
        ensures { Located slot_before self.now.rows.slots.now self.now.rows.len (slot key.now 0 0) result }
    {
        let sought = Slot {
            key: *key,
            span: Span { place: 0, size: 0 },
        };
        self.rows.find(&sought)
    }

    // Where the value of the slot at an index begins, or would.
    pub(super) fn place(&self, i: usize) -> usize
        ensures { result ≡ total (take i (take self.now.rows.len self.now.rows.slots.now)) }
    {
        match self.rows.get(i) {
            Some(slot) => slot.span.place,
            None => self.used,
        }
    }
}
