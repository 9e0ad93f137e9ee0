// Keys and prefixes from texts, and the tests of them.
ghost use Rattle.std.specs.Prelude.{◌≡◌, true, false, take, MatchResult};
ghost use Rattle.keys.specs.Keys.{ends_fresh, form, well_formed, is_key, is_prefix, key_or_fault};
ghost use Rattle.keys.specs.Values.{key_text, key_in};

use super::{MAX_KEY, MAX_PREFIX, StoreKey};
use crate::fault::StoreFault;
use paths::Inline;
use text::is_text;

// Whether a text is a key: 1 to 400 bytes of text, no `/` at either end and no `//`.
pub fn is_key(text: &[u8]) -> bool
    ensures { result ≡ is_key text.now }
{
    is_well_formed(text, false, MAX_KEY)
}

// Whether a text is a prefix: empty, or a key and `/`.
pub fn is_prefix(text: &[u8]) -> bool
    ensures { result ≡ is_prefix text.now }
{
    is_well_formed(text, true, MAX_PREFIX)
}

impl StoreKey {
    pub fn new(text: &[u8]) -> Result<StoreKey, StoreFault>
        ensures { key_in result ≡ key_or_fault text.now }
    {
        let text = held(text, false)?;
        Ok(StoreKey { text })
    }

    pub fn as_bytes(&self) -> &[u8]
        ensures { result.now ≡ key_text self.now }
    {
        self.text.as_bytes()
    }
}

// A well-formed text of at most N bytes, kept in place.
pub(crate) fn held<const N: usize>(text: &[u8], trailing: bool) -> Result<Inline<N>, StoreFault>
    ensures { MatchResult result (λ v. (take v.len v.bytes ≡ text.now) × (well_formed N trailing text.now ≡ true)) (λ e. (e ≡ StoreFault.Malformed) × (well_formed N trailing text.now ≡ false)) }
{
    if !is_well_formed(text, trailing, N) {
        return Err(StoreFault::Malformed);
    }
    Inline::of(text, b"", b"").ok_or(StoreFault::Malformed)
}

// Whether a text has at most so many bytes and is made of names with `/` between them; a trailing one is empty or ends with a `/`, another does neither.
fn is_well_formed(text: &[u8], trailing: bool, most: usize) -> bool
    ensures { result ≡ well_formed most trailing text.now }
{
    has_form(text, trailing) && text.len() <= most && is_text(text)
}

// The same of a text of any length.
fn has_form(text: &[u8], trailing: bool) -> bool
    ensures { result ≡ form trailing text.now }
{
    ends_fresh(text) == Some(trailing)
}

// None for a `/` where a name has to begin; else whether a name has to begin at the end.
fn ends_fresh(text: &[u8]) -> Option<bool>
    ensures { result ≡ ends_fresh true text.now }
{
    let mut fresh = true;
    for b in text {
        let slash = *b == b'/';
        if fresh && slash {
            return None;
        }
        fresh = slash;
    }
    Some(fresh)
}
