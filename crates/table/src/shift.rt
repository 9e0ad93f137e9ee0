// Slots moved by one.
ghost use Rattle.std.specs.Prelude.{◌<◌, ◌≤◌, length};
ghost use Rattle.table.specs.Order.{Opened, Closed};

// Puts a record in at an index and moves those from there on, up to `len`, up by one.
pub(crate) fn open<T: Copy>(slots: &mut [T], i: usize, len: usize, x: T)
    requires within { len < length slots.old }
    requires place { i ≤ len }
    ensures { Opened slots.old slots.new i len x }
{
    slots.copy_within(i..len, i + 1);
    slots[i] = x;
}

// Moves the records behind an index, up to `len`, down by one.
pub(crate) fn close<T: Copy>(slots: &mut [T], i: usize, len: usize)
    requires within { len ≤ length slots.old }
    requires place { i < len }
    ensures { Closed slots.old slots.new i len }
{
    slots.copy_within(i + 1..len, i);
}
