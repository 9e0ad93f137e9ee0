// A slot of a shelf: a key, and where its value lies.
ghost use Rattle.std.specs.Prelude.{◌≡◌};

mod order;

use keys::{MetadataFile, StoreKey, meta_key};
use paths::NodePath;

#[derive(Clone, Copy)]
pub struct Slot {
    pub(crate) key: StoreKey,
    pub(crate) span: Span,
}

// Where a value lies among the bytes: at its place, as many as its size.
#[derive(Clone, Copy)]
pub struct Span {
    pub(crate) place: usize,
    pub(crate) size: usize,
}

impl Slot {
    // A slot to fill an array of slots with: what it holds is no matter.
    pub fn empty() -> Slot
        ensures { (result.span.place ≡ 0) × (result.span.size ≡ 0) }
    {
        Slot {
            key: meta_key(&NodePath::root(), MetadataFile::ZarrJson),
            span: Span { place: 0, size: 0 },
        }
    }
}
