// The shelf: slots and bytes in use, with what they keep in the type.
ghost use Rattle.std.specs.Prelude.{◌≡◌, ◌≤◌, true, [], length, take};
ghost use Rattle.shelves.specs.Slots.{total, placed};

mod edit;
mod run;
mod seek;
mod store;
mod write;

use crate::slot::Slot;
use table::Sorted;

// A store of as many pairs as there are slots, whose values have together at most as many bytes as there are.
// Kept: no heap in the engine, so the values lie in lent bytes with the number of those in use beside them.
#[derive(Drop)]
pub struct Shelf<'a> {
    rows: Sorted<'a, Slot>,
    bytes: &'a mut [u8],
    used: usize,
    ghost short: { used ≤ length bytes.now },
    ghost sum: { total (take rows.len rows.slots.now) ≡ used },
    ghost places: { placed 0 (take rows.len rows.slots.now) ≡ true },
}

impl<'a> Shelf<'a> {
    ghost use Rattle.shelves.specs.Meant.{pairs_in};

    // An empty shelf.
    pub fn new(slots: &'a mut [Slot], bytes: &'a mut [u8]) -> Shelf<'a>
        ensures empty { pairs_in result ≡ [] }
        ensures lent { (result.rows.slots.now ≡ slots.old) × (result.bytes.now ≡ bytes.old) }
        ensures same { (result.rows.slots.ghost_name ≡ slots.entry.ghost_name) × (result.bytes.ghost_name ≡ bytes.entry.ghost_name) }
    {
        Shelf {
            rows: Sorted::new(slots),
            bytes,
            used: 0,
        }
    }
}

impl Shelf<'_> {
    ghost use Rattle.shelves.specs.Slots.{weight};
    ghost use Rattle.shelves.specs.Meant.{pairs_in};

    // How many pairs there are.
    #[tactic(auto, using(crate::proofs::Changed::many))]
    pub fn len(&self) -> usize
        ensures { result ≡ length (pairs_in self.now) }
    {
        self.rows.len()
    }

    // How many bytes the values have together.
    #[tactic(auto, using(crate::proofs::Changed::heavy))]
    pub fn used(&self) -> usize
        ensures { result ≡ weight (pairs_in self.now) }
    {
        self.used
    }
}
