// A reader of a document that stays the caller's.
ghost use Rattle.std.specs.Prelude.{◌≡◌, MatchResult};
ghost use Rattle.members.specs.LookUp.{LookedUp, FaultAt, part_of};
ghost use Rattle.members.specs.declared.cursor.Cursor.{Cursor};

use crate::cursor::{Cursor, Restore};
use crate::walk::{ValuePlace, walk};
use documents::{DocumentFault, blanks};

// The document, and how far it is read.
#[derive(Drop)]
pub struct Reader<'a> {
    doc: &'a [u8],
    cursor: Cursor,
}

// Looks the name up in the object at the cursor, which moves.
fn look_up(
    doc: &[u8],
    cursor: &mut Cursor,
    want: &[u8],
) -> Result<Option<ValuePlace>, DocumentFault>
    ensures { MatchResult result (λ o. LookedUp doc.now cursor.old want.now o) (λ f. FaultAt doc.now cursor.old f) }
{
    let bytes = doc.get(cursor.offset..).ok_or(DocumentFault::Form)?;
    let members = blanks(bytes)
        .bytes
        .strip_prefix(b"{")
        .ok_or(DocumentFault::Form)?;
    let depth = cursor.depth.checked_sub(1).ok_or(DocumentFault::Form)?;
    *cursor = Cursor {
        offset: doc.len() - members.len(),
        depth,
    };
    walk(doc, cursor, want).map_err(|stop| stop.fault_in(doc))
}

impl<'a> Reader<'a> {
    // A reader at the front of a document.
    pub fn new(doc: &'a [u8]) -> Reader<'a>
        ensures doc { result.doc.now ≡ doc.now }
        ensures cursor { (result.cursor.offset ≡ 0) × (result.cursor.depth ≡ 64) }
    {
        Reader {
            doc,
            cursor: Cursor {
                offset: 0,
                depth: 64,
            },
        }
    }

    // The place of the value of the first member with the name, its escapes undone, of the object at the reader's place. That place is the same afterwards, on every way out.
    pub fn member(&mut self, want: &[u8]) -> Result<Option<ValuePlace>, DocumentFault>
        ensures stays { self.new.cursor ≡ self.old.cursor }
        ensures document { self.new.doc.now ≡ self.old.doc.now }
        ensures is { MatchResult result (λ o. LookedUp self.old.doc.now self.old.cursor want.now o) (λ f. FaultAt self.old.doc.now self.old.cursor f) }
    {
        let saved = self.cursor;
        let guard = Restore {
            cursor: &mut self.cursor,
            saved,
        };
        look_up(self.doc, guard.cursor, want)
    }

    // The bytes of the document at a place, and none where there is no such place.
    pub fn text(&self, place: ValuePlace) -> &'a [u8]
        ensures { result.now ≡ part_of self.now.doc.now place.from place.to }
    {
        self.doc.get(place.from..place.to).unwrap_or(&[])
    }
}
