// Slots put in and taken out, and a value replaced.
ghost use Rattle.std.specs.Prelude.{◌≡◌, ◌+◌, ◌<◌, ◌≤◌, [], length};
ghost use Rattle.table.specs.Order.{Parts};
ghost use Rattle.keys.specs.Values.{key_text};
ghost use Rattle.stores.specs.Pairs.{inserted, removed};
ghost use Rattle.shelves.specs.declared.slot.Slot.{Slot};
ghost use Rattle.shelves.specs.Slots.{slot, slot_before};
ghost use Rattle.shelves.specs.Meant.{slot_at, pairs_in, Lent};

use super::Shelf;
use crate::lay::{lay, slot_at};
use crate::slot::{Slot, Span};
use crate::splice::splice;
use keys::StoreKey;

impl Shelf<'_> {
    // Puts in a slot with an empty value, at the index where its key belongs.
    pub(super) fn add(&mut self, i: usize, key: StoreKey)
        requires room { self.old.rows.len < length self.old.rows.slots.now }
        requires place { Parts slot_before self.old.rows.slots.now self.old.rows.len (slot key 0 0) i }
        ensures lent { Lent self.old self.new }
        ensures adds { pairs_in self.new ≡ inserted (key_text key) [] (pairs_in self.old) }
        ensures here { (self.new.rows.len ≡ self.old.rows.len + 1) × (self.new.used ≡ self.old.used) × ((d : Slot) → ((slot_at self.new i d).key ≡ key) × ((slot_at self.new i d).span.size ≡ 0)) }
    {
        let place = self.place(i);
        let slot = Slot {
            key,
            span: Span { place, size: 0 },
        };
        self.rows.insert_at(i, slot);
    }

    // Gives the slot at an index another value.
    pub(super) fn resize(&mut self, i: usize, value: &[u8])
        requires place { i < self.old.rows.len }
        requires room { (d : Slot) → self.old.used + length value.now ≤ length self.old.bytes.now + (slot_at self.old i d).span.size }
        ensures lent { Lent self.old self.new }
        ensures holds { (d : Slot) → pairs_in self.new ≡ inserted (key_text (slot_at self.old i d).key) value.now (pairs_in self.old) }
        ensures here { (self.new.rows.len ≡ self.old.rows.len) × ((d : Slot) → ((slot_at self.new i d).key ≡ (slot_at self.old i d).key) × ((slot_at self.new i d).span.size ≡ length value.now)) }
    {
        let Span { place, size: old } = slot_at(&self.rows, i).span;
        let used = self.used;
        let size = value.len();
        splice(self.bytes, place, old, used, value);
        self.rows.set_rest(i, Span { place, size });
        self.used = used - old + size;
        lay(&mut self.rows, i + 1, place + size);
    }

    // Takes out a slot with an empty value.
    pub(super) fn drop_slot(&mut self, i: usize)
        requires place { i < self.old.rows.len }
        requires empty { (d : Slot) → (slot_at self.old i d).span.size ≡ 0 }
        ensures lent { Lent self.old self.new }
        ensures drops { (d : Slot) → pairs_in self.new ≡ removed (key_text (slot_at self.old i d).key) (pairs_in self.old) }
    {
        self.rows.remove(i);
    }
}
