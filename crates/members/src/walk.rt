// The members of an object, one by one.
ghost use Rattle.std.specs.Prelude.{◌≡◌, ◌≤◌, length, drop, MatchResult};
ghost use Rattle.documents.specs.Reading.{Refuses, AnyObject};
ghost use Rattle.members.specs.LookUp.{Looked};

use crate::cursor::Cursor;
use documents::{Stop, blanks, name, value};
use names::name_is;

// Where a value begins, and where it ends.
#[derive(Clone, Copy)]
pub struct ValuePlace {
    pub from: usize,
    pub to: usize,
}

// The value of the first member with the name, of the object whose opening brace stands before the cursor. The cursor goes along.
// Kept: beside `object` of documents, which keeps nothing of its members; and `follow` stays inside documents, since its bound would be public with it.
pub(crate) fn walk<'a>(
    doc: &'a [u8],
    cursor: &mut Cursor,
    want: &[u8],
) -> Result<Option<ValuePlace>, Stop<'a>>
    requires { cursor.old.offset ≤ length doc.now }
    ensures { MatchResult result (λ o. Looked doc.now cursor.old.depth cursor.old.offset want.now o) (λ stop. Refuses (AnyObject cursor.old.depth) (drop cursor.old.offset doc.now) stop.rest.now) }
{
    let depth = cursor.depth;
    let mut member = blanks(&doc[cursor.offset..]);
    if member.bytes.starts_with(b"}") {
        return Ok(None);
    }
    let mut found = None;
    loop {
        cursor.offset = doc.len() - member.bytes.len();
        let named = name(member)?;
        let behind = value(named.value, depth)?;
        let place = ValuePlace {
            from: doc.len() - named.value.bytes.len(),
            to: doc.len() - behind.len(),
        };
        found = found.or(name_is(named.name, want).then_some(place));
        let end = blanks(behind);
        if end.bytes.starts_with(b"}") {
            return Ok(found);
        }
        let rest = end
            .bytes
            .strip_prefix(b",")
            .ok_or(Stop { rest: end.bytes })?;
        member = blanks(rest);
    }
}
