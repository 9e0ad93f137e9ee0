// The slots that are lent to a table: given to it with records in them, and given back.
ghost use Rattle.std.specs.Prelude.{◌≡◌, ◌≤◌, length};

use super::Table;
use std::marker::PhantomData;

impl<'a, T, By> Table<'a, T, By> {
    // A table with the records in the first `len` of the slots.
    pub(crate) fn of(slots: &'a mut [T], len: usize) -> Table<'a, T, By>
        requires { len ≤ length slots.old }
        ensures len { result.len ≡ len }
        ensures slots { result.slots.now ≡ slots.old }
        ensures same { result.slots.ghost_name ≡ slots.entry.ghost_name }
    {
        Table {
            slots,
            len,
            by: PhantomData,
        }
    }

    // The slots, and how many of them hold a record.
    pub(crate) fn into_slots(self) -> (&'a mut [T], usize)
        ensures len { result.1 ≡ self.entry.len }
        ensures slots { result.0.now ≡ self.entry.slots.now }
        ensures same { result.0.ghost_name ≡ self.entry.slots.ghost_name }
    {
        (self.slots, self.len)
    }
}
