// Slots read by index, and given their places.
ghost use Rattle.std.specs.Prelude.{◌≡◌, ◌+◌, ◌^◌, ◌<◌, ◌≤◌, ◌++◌, length, take, drop, slice_index_or};
ghost use Rattle.shelves.specs.declared.slot.Slot.{Slot};
ghost use Rattle.shelves.specs.Slots.{total, laid};

use crate::slot::{Slot, Span};
use table::Sorted;

// The slot at an index.
pub(crate) fn slot_at<'t>(rows: &'t Sorted<Slot>, i: usize) -> &'t Slot
    requires { i < rows.now.len }
    ensures { (d : Slot) → result.now ≡ slice_index_or rows.now.slots.now i d }
{
    rows.get(i).unwrap()
}

// Sets the places of the slots from an index on, the first of them to `place`.
pub(crate) fn lay(rows: &mut Sorted<Slot>, from: usize, mut place: usize)
    requires start { from ≤ rows.old.len }
    requires short { place + total (drop from (take rows.old.len rows.old.slots.now)) < 2 ^ 64 }
    ensures len { rows.new.len ≡ rows.old.len }
    ensures room { length rows.new.slots.now ≡ length rows.old.slots.now }
    ensures same { rows.new.slots.ghost_name ≡ rows.old.slots.ghost_name }
    ensures rows { take rows.new.len rows.new.slots.now ≡ take from (take rows.old.len rows.old.slots.now) ++ laid place (drop from (take rows.old.len rows.old.slots.now)) }
{
    for i in from..rows.len() {
        let size = slot_at(rows, i).span.size;
        rows.set_rest(i, Span { place, size });
        place += size;
    }
}
