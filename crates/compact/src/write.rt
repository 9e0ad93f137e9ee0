// The compact text of a document.
ghost use Rattle.std.specs.Prelude.{◌≡◌, ◌≤◌, ◌++◌, length, drop, MatchResult};
ghost use Rattle.documents.specs.Faults.{FaultOf};
ghost use Rattle.grammar.specs.Compact.{squeezed};
ghost use Rattle.grammar.specs.declared.kinds.Place.TheVariants.{Between};
ghost use Rattle.compact.specs.Compacted.{Compacted};

use crate::squeeze::Squeezed;
use documents::{DocumentFault, document};

// How many bytes are left.
fn squeezed_len(doc: &[u8]) -> usize
    ensures { result ≡ length (squeezed Between doc.now) }
{
    Squeezed::new(doc).count()
}

// Writes what is left at the front of the output, which has room for it.
fn squeeze(doc: &[u8], out: &mut [u8])
    requires { length (squeezed Between doc.now) ≤ length out.old }
    ensures { out.new ≡ squeezed Between doc.now ++ drop (length (squeezed Between doc.now)) out.old }
{
    for (n, b) in Squeezed::new(doc).enumerate() {
        out[n] = b;
    }
}

// Writes the compact text of a document at the front of the output, and answers its length; or none, if it is longer than the output. Where it writes none, the output stays as it was.
pub fn compact(doc: &[u8], out: &mut [u8]) -> Result<Option<usize>, DocumentFault>
    ensures { MatchResult result (λ n. Compacted doc.now out.old out.new n) (λ f. FaultOf doc.now f × (out.new ≡ out.old)) }
{
    document(doc)?;
    let n = squeezed_len(doc);
    if n > out.len() {
        return Ok(None);
    }
    squeeze(doc, out);
    Ok(Some(n))
}
