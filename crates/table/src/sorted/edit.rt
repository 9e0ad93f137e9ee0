// Records put into the sorted table, replaced and taken out of it.
// Kept: the slots move into a `Table` for the call and back. Were they lent to it, the checker would not know what they hold afterwards.
ghost use Rattle.std.specs.Prelude.{◌≡◌, ◌+◌, ◌<◌, ◌≤◌, length, take, MatchResult, MatchOption, slice_index_or, slice_set};
ghost use Rattle.std.specs.Bool.{MatchBool, Decides};
ghost use Rattle.std.specs.List.{insert, remove};
ghost use Rattle.table.specs.Order.{before, Parts, Found};

use super::Sorted;
use crate::order::ByOrd;
use crate::rows::{Record, Refusal, Table};
use std::mem;

impl<T: Ord + Copy> Sorted<'_, T> {
    // Puts a record in at its place. Where it is refused, nothing is changed.
    pub fn insert(&mut self, x: T) -> Result<usize, Refusal>
        ensures room { length self.new.slots.now ≡ length self.old.slots.now }
        ensures same { self.new.slots.ghost_name ≡ self.old.slots.ghost_name }
        ensures rows { MatchResult result
            (λ i. Parts (before T.cmp) self.old.slots.now self.old.len x i
            × (self.new.len ≡ self.old.len + 1)
            × (take self.new.len self.new.slots.now ≡ insert (take self.old.len self.old.slots.now) i x))
            (λ e. (self.new.len ≡ self.old.len)
            × (self.new.slots.now ≡ self.old.slots.now)
            × elim e [ Refusal.Full ↦ self.old.len ≡ length self.old.slots.now | Refusal.Known i ↦ Found (before T.cmp) self.old.slots.now self.old.len x i ]) }
    {
        let mut table: Table<'_, T, ByOrd> = Table::of(mem::take(&mut self.slots), self.len);
        let placed = table.insert(x);
        (self.slots, self.len) = table.into_slots();
        placed
    }

    // Puts a record in at an index, if there is a slot and the index parts those before it from those after it.
    // Where it is refused, nothing is changed.
    pub fn insert_at(&mut self, i: usize, x: T) -> bool
        ensures room { length self.new.slots.now ≡ length self.old.slots.now }
        ensures same { self.new.slots.ghost_name ≡ self.old.slots.ghost_name }
        ensures granted { Decides result ((self.old.len < length self.old.slots.now) × Parts (before T.cmp) self.old.slots.now self.old.len x i) }
        ensures rows { MatchBool result
            ((self.new.len ≡ self.old.len + 1)
            × (take self.new.len self.new.slots.now ≡ insert (take self.old.len self.old.slots.now) i x))
            ((self.new.len ≡ self.old.len) × (self.new.slots.now ≡ self.old.slots.now)) }
    {
        let mut table: Table<'_, T, ByOrd> = Table::of(mem::take(&mut self.slots), self.len);
        let placed = table.insert_at(i, x);
        (self.slots, self.len) = table.into_slots();
        placed
    }

    // Puts a record in the place of one that is the same in the order. Where there is none, nothing is changed.
    pub fn replace(&mut self, i: usize, x: T) -> bool
        ensures same { self.new.slots.ghost_name ≡ self.old.slots.ghost_name }
        ensures granted { Decides result (Found (before T.cmp) self.old.slots.now self.old.len x i) }
        ensures rows { (self.new.len ≡ self.old.len) × MatchBool result (self.new.slots.now ≡ slice_set self.old.slots.now i x) (self.new.slots.now ≡ self.old.slots.now) }
    {
        let mut table: Table<'_, T, ByOrd> = Table::of(mem::take(&mut self.slots), self.len);
        let replaced = table.replace(i, x);
        (self.slots, self.len) = table.into_slots();
        replaced
    }

    // Takes out the record at an index, if there are so many.
    pub fn remove(&mut self, i: usize) -> Option<T>
        ensures room { length self.new.slots.now ≡ length self.old.slots.now }
        ensures same { self.new.slots.ghost_name ≡ self.old.slots.ghost_name }
        ensures rows { MatchOption result
            ((self.old.len ≤ i) × (self.new.len ≡ self.old.len) × (self.new.slots.now ≡ self.old.slots.now))
            (λ x. (i < self.old.len)
            × ((d : T) → x ≡ slice_index_or self.old.slots.now i d)
            × (self.new.len + 1 ≡ self.old.len)
            × (take self.new.len self.new.slots.now ≡ remove (take self.old.len self.old.slots.now) i)) }
    {
        let mut table: Table<'_, T, ByOrd> = Table::of(mem::take(&mut self.slots), self.len);
        let taken = table.remove(i);
        (self.slots, self.len) = table.into_slots();
        taken
    }
}

impl<T: Record> Sorted<'_, T> {
    // Gives the record at an index another rest, if there are so many; it stays where it stands.
    pub fn set_rest(&mut self, i: usize, rest: T::Rest) -> bool
        ensures same { self.new.slots.ghost_name ≡ self.old.slots.ghost_name }
        ensures rows { (self.new.len ≡ self.old.len) × MatchBool result
            ((i < self.old.len) × ((d : T) → self.new.slots.now ≡ slice_set self.old.slots.now i (T.with_rest (slice_index_or self.old.slots.now i d) rest)))
            ((self.old.len ≤ i) × (self.new.slots.now ≡ self.old.slots.now)) }
    {
        let mut table: Table<'_, T, ByOrd> = Table::of(mem::take(&mut self.slots), self.len);
        let set = table.set_rest(i, rest);
        (self.slots, self.len) = table.into_slots();
        set
    }
}
