// Past values, arrays and objects, and whole documents. Nesting is the only recursion, and it is counted down.
ghost use Rattle.std.specs.Prelude.{◌≡◌, MatchResult};
ghost use Rattle.grammar.specs.Grammar.{Text};
ghost use Rattle.documents.specs.Faults.{FaultOf};
ghost use Rattle.documents.specs.Reading.{Refuses, AnyValue, AnyArray, AnyObject, AnyName, GotValue, GotArray, GotObject, GotName};

use crate::bare::Bare;
use crate::fault::{DocumentFault, Stop};
use crate::kinds::start_of;
use crate::scan::{blanks, chars, first, follow, number};
use grammar::{Phase, Start};

// How deep arrays and objects may nest.
const DEPTH: u8 = 64;

// A member's name as it is written between its quotes, and the bytes from the member's value on.
#[derive(Clone, Copy)]
pub struct Named<'a> {
    pub name: &'a [u8],
    pub value: Bare<'a>,
}

// Past a member's name, its colon and the white space behind that.
pub fn name<'a>(start: Bare<'a>) -> Result<Named<'a>, Stop<'a>>
    ensures { MatchResult result (λ n. GotName start.entry.bytes.now n.name.now n.value.bytes.now) (λ stop. Refuses AnyName start.entry.bytes.now stop.rest.now) }
{
    let quoted = follow(start.bytes, b"\"")?;
    let behind = chars(quoted)?;
    let value = follow(blanks(behind).bytes, b":")?;
    Ok(Named {
        name: &quoted[..quoted.len() - behind.len() - 1],
        value: blanks(value),
    })
}

// Past a value that begins here.
#[cycle(array_object_value)]
pub fn value<'a>(start: Bare<'a>, depth: u8) -> Result<&'a [u8], Stop<'a>>
    ensures { MatchResult result (λ r. GotValue depth start.entry.bytes.now r.now) (λ stop. Refuses (AnyValue depth) start.entry.bytes.now stop.rest.now) }
{
    let rest = match first(start.bytes, start_of)? {
        (Start::Quote, tail) => chars(tail)?,
        (Start::Minus, tail) => number(tail, Phase::AtMinus)?,
        (Start::Zero, tail) => number(tail, Phase::AtZero)?,
        (Start::Positive, tail) => number(tail, Phase::AtWhole)?,
        (Start::OpenArray, tail) if depth > 0 => array(tail, depth - 1)?,
        (Start::OpenObject, tail) if depth > 0 => object(tail, depth - 1)?,
        (Start::LitT, tail) => follow(tail, b"rue")?,
        (Start::LitF, tail) => follow(tail, b"alse")?,
        (Start::LitN, tail) => follow(tail, b"ull")?,
        (Start::OpenArray | Start::OpenObject | Start::Blank, _) => {
            return Err(Stop { rest: start.bytes });
        }
    };
    Ok(rest)
}

// From behind an array's opening bracket to behind its closing one.
#[cycle(array_object_value)]
fn array(bytes: &[u8], depth: u8) -> Result<&[u8], Stop<'_>>
    ensures { MatchResult result (λ r. GotArray depth bytes.now r.now) (λ stop. Refuses (AnyArray depth) bytes.now stop.rest.now) }
{
    let mut item = blanks(bytes);
    if let Some(rest) = item.bytes.strip_prefix(b"]") {
        return Ok(rest);
    }
    loop {
        let end = blanks(value(item, depth)?);
        let Some((b, rest)) = end.bytes.split_first() else {
            return Err(Stop { rest: end.bytes });
        };
        item = match *b {
            b']' => return Ok(rest),
            b',' => blanks(rest),
            _ => return Err(Stop { rest: end.bytes }),
        };
    }
}

// From behind an object's opening brace to behind its closing one.
// Kept: beside `array`, since one contract for both would need a case for each, and be longer than both.
#[cycle(array_object_value)]
fn object(bytes: &[u8], depth: u8) -> Result<&[u8], Stop<'_>>
    ensures { MatchResult result (λ r. GotObject depth bytes.now r.now) (λ stop. Refuses (AnyObject depth) bytes.now stop.rest.now) }
{
    let mut member = blanks(bytes);
    if let Some(rest) = member.bytes.strip_prefix(b"}") {
        return Ok(rest);
    }
    loop {
        let named = name(member)?;
        let end = blanks(value(named.value, depth)?);
        let Some((b, rest)) = end.bytes.split_first() else {
            return Err(Stop { rest: end.bytes });
        };
        member = match *b {
            b'}' => return Ok(rest),
            b',' => blanks(rest),
            _ => return Err(Stop { rest: end.bytes }),
        };
    }
}

// Whether the bytes are a permitted JSON text; if not, the fault has the length of their longest start that some permitted text continues.
pub fn document(doc: &[u8]) -> Result<(), DocumentFault>
    ensures { MatchResult result (λ _. Text doc.now) (λ f. FaultOf doc.now f) }
{
    let behind = value(blanks(doc), DEPTH).map_err(|stop| stop.fault_in(doc))?;
    let stop = Stop {
        rest: blanks(behind).bytes,
    };
    if stop.rest.is_empty() {
        Ok(())
    } else {
        Err(stop.fault_in(doc))
    }
}
