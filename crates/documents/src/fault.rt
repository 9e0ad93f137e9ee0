// What is refused of a document, and where.
ghost use Rattle.std.specs.Prelude.{◌≡◌, ◌-◌, length};
ghost use Rattle.documents.specs.Faults.{told_of_document};
ghost use Rattle.documents.specs.declared.fault.DocumentFault.TheVariants.{Syntax};

use text::{Fault, FaultReport, Layer};

// Bytes that are no permitted JSON text, with the length of their longest start that some permitted text continues; a text of another form than is asked for; a text put together from others that would nest too deep.
#[derive(Clone, Copy, PartialEq, Eq, Debug)]
pub enum DocumentFault {
    Syntax(usize),
    Form,
    Deep,
}

impl Fault for DocumentFault {
    ghost told = { λ e. told_of_document e };

    fn report(&self) -> FaultReport {
        let (number, position) = match self {
            DocumentFault::Syntax(at) => (31, *at),
            DocumentFault::Form => (32, 0),
            DocumentFault::Deep => (44, 0),
        };
        FaultReport {
            number,
            layer: Layer::Document,
            position,
        }
    }
}

// What is left of some bytes from a place on. Where a reader refuses with it, the bytes before the place can be continued to a text, and with the next one no more.
#[derive(Clone, Copy)]
pub struct Stop<'a> {
    pub rest: &'a [u8],
}

impl Stop<'_> {
    // The fault of a document that ends with the rest.
    pub fn fault_in(self, doc: &[u8]) -> DocumentFault
        ensures { result ≡ Syntax (length doc.now - length self.entry.rest.now) }
    {
        DocumentFault::Syntax(doc.len().saturating_sub(self.rest.len()))
    }
}
