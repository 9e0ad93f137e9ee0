// The table: a run of lent slots and how many of them hold a record.
ghost use Rattle.std.specs.Prelude.{◌≡◌, ◌<◌, ◌≤◌, length, take, slice_index_or, MatchOption, MatchResult};
ghost use Rattle.table.specs.Order.{Ascending, Located};

mod edit;
mod lent;
mod record;

use crate::order::{ByOwn, OrderedBy, rank};
pub use record::Record;
use std::marker::PhantomData;

// Why a record is not put in: every slot is taken, or one that is the same stands at an index.
#[derive(Clone, Copy, PartialEq, Eq, Debug)]
pub enum Refusal {
    Full,
    Known(usize),
}

// The records in the first `len` of the lent slots. They may be of any type; where they have an order and ascend, every call leaves them so.
// The type takes records with no order too, so it cannot say that they ascend: that of `Sorted` does. `By` names the order, if there is one.
// Kept: no heap in the engine, so the records lie in lent slots with their number beside them.
#[derive(Drop)]
pub struct Table<'a, T, By = ByOwn> {
    slots: &'a mut [T],
    len: usize,
    by: PhantomData<By>,
    pub ghost within: { len ≤ length slots.now },
}

impl<'a, T> Table<'a, T> {
    // A table with no record, in the records' own order if they have one.
    pub fn new(slots: &'a mut [T]) -> Table<'a, T>
        ensures empty { result.len ≡ 0 }
        ensures slots { result.slots.now ≡ slots.old }
        ensures same { result.slots.ghost_name ≡ slots.entry.ghost_name }
    {
        Table::with_order(slots)
    }
}

impl<'a, T, By> Table<'a, T, By> {
    // A table with no record, in the order that the type names.
    pub fn with_order(slots: &'a mut [T]) -> Table<'a, T, By>
        ensures empty { result.len ≡ 0 }
        ensures slots { result.slots.now ≡ slots.old }
        ensures same { result.slots.ghost_name ≡ slots.entry.ghost_name }
    {
        Table {
            slots,
            len: 0,
            by: PhantomData,
        }
    }
}

impl<T, By> Table<'_, T, By> {
    // How many records there are.
    pub fn len(&self) -> usize
        ensures { result ≡ self.now.len }
    {
        self.len
    }

    // How many records there is room for.
    pub fn room(&self) -> usize
        ensures { result ≡ length self.now.slots.now }
    {
        self.slots.len()
    }

    // The records.
    fn records(&self) -> &[T]
        ensures { result.now ≡ take self.now.len self.now.slots.now }
    {
        &self.slots[..self.len]
    }

    // The record at an index, if there are so many.
    pub fn get(&self, i: usize) -> Option<&T>
        ensures { MatchOption result (self.now.len ≤ i) (λ x. (i < self.now.len) × ((d : T) → x.now ≡ slice_index_or self.now.slots.now i d)) }
    {
        self.records().get(i)
    }
}

impl<T: OrderedBy<By>, By> Table<'_, T, By> {
    // Where a record stands, or where it would.
    pub fn find(&self, x: &T) -> Result<usize, usize>
        ensures within { MatchResult result (λ i. i < self.now.len) (λ i. i ≤ self.now.len) }
        ensures place { Ascending T.before self.now.slots.now self.now.len → Located T.before self.now.slots.now self.now.len x.now result }
    {
        self.records().binary_search_by(|y| rank::<T, By>(y, x))
    }
}
