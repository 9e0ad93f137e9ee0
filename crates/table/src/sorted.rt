// The table that keeps its order in its type.
ghost use Rattle.std.specs.Prelude.{◌≡◌, ◌<◌, ◌≤◌, length, take, slice_index_or, MatchOption};
ghost use Rattle.table.specs.Order.{before, Ascending, Located};

mod edit;

use crate::order::{ByOrd, rank};

// A table whose records ascend in the library's order of their type.
// Kept: the slots are a field of its own, and not of a `Table` in it: only so is it known what they hold when the table is gone.
#[derive(Drop)]
pub struct Sorted<'a, T: Ord> {
    slots: &'a mut [T],
    len: usize,
    pub ghost within: { len ≤ length slots.now },
    pub ghost ascends: { Ascending (before T.cmp) slots.now len },
}

impl<'a, T: Ord> Sorted<'a, T> {
    // A table with no record.
    pub fn new(slots: &'a mut [T]) -> Sorted<'a, T>
        ensures empty { result.len ≡ 0 }
        ensures slots { result.slots.now ≡ slots.old }
        ensures same { result.slots.ghost_name ≡ slots.entry.ghost_name }
    {
        Sorted { slots, len: 0 }
    }
}

impl<T: Ord> Sorted<'_, T> {
    // How many records there are.
    pub fn len(&self) -> usize
        ensures { result ≡ self.now.len }
    {
        self.len
    }

    // How many records there is room for.
    pub fn room(&self) -> usize
        ensures { result ≡ length self.now.slots.now }
    {
        self.slots.len()
    }

    // The records, ascending.
    fn records(&self) -> &[T]
        ensures { result.now ≡ take self.now.len self.now.slots.now }
    {
        &self.slots[..self.len]
    }

    // The record at an index, if there are so many.
    pub fn get(&self, i: usize) -> Option<&T>
        ensures { MatchOption result (self.now.len ≤ i) (λ x. (i < self.now.len) × ((d : T) → x.now ≡ slice_index_or self.now.slots.now i d)) }
    {
        self.records().get(i)
    }

    // Where a record stands, or where it would.
    pub fn find(&self, x: &T) -> Result<usize, usize>
        ensures { Located (before T.cmp) self.now.slots.now self.now.len x.now result }
    {
        self.records().binary_search_by(|y| rank::<T, ByOrd>(y, x))
    }
}
