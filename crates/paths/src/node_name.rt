// Names of nodes.
ghost use Rattle.std.specs.Prelude.{◌≡◌, true, false, MatchResult};
ghost use Rattle.paths.specs.Names.{reserved, only_periods, is_name};

use crate::fault::PathFault;
use crate::slashes::is_plain;
use text::is_text;

// A lawful name, in the text that it was made from.
#[derive(Clone, Copy)]
pub struct NodeName<'a> {
    text: &'a [u8],
    ghost lawful: { is_name text.now ≡ true },
}

impl<'a> NodeName<'a> {
    pub fn new(text: &'a [u8]) -> Result<NodeName<'a>, PathFault>
        ensures { MatchResult result (λ n. (n.text.now ≡ text.now) × (is_name text.now ≡ true)) (λ e. (e ≡ PathFault.Invalid) × (is_name text.now ≡ false)) }
    {
        if NodeName::validate(text) {
            Ok(NodeName { text })
        } else {
            Err(PathFault::Invalid)
        }
    }

    pub fn as_bytes(&self) -> &'a [u8]
        ensures { result.now ≡ self.now.text.now }
    {
        self.text
    }
}

impl NodeName<'_> {
    // Whether a text is a name: it isn't empty, has no `/`, doesn't begin with `__` and isn't made of periods only.
    pub fn validate(text: &[u8]) -> bool
        ensures { result ≡ is_name text.now }
    {
        is_text(text) && is_plain(text) && !is_reserved(text) && !is_only_periods(text)
    }
}

// Whether a text begins with `__`, as no name may.
pub fn is_reserved(text: &[u8]) -> bool
    ensures { result ≡ reserved text.now }
{
    text.starts_with(b"__")
}

fn is_only_periods(text: &[u8]) -> bool
    ensures { result ≡ only_periods text.now }
{
    text.iter().all(|b| *b == b'.')
}
