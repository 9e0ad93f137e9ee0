// Prefixes from texts.
ghost use Rattle.std.specs.Prelude.{◌≡◌};
ghost use Rattle.keys.specs.Keys.{prefix_or_fault};
ghost use Rattle.keys.specs.Values.{prefix_text, prefix_in};

use super::StorePrefix;
use super::make::held;
use crate::fault::StoreFault;

impl StorePrefix {
    pub fn new(text: &[u8]) -> Result<StorePrefix, StoreFault>
        ensures { prefix_in result ≡ prefix_or_fault text.now }
    {
        let text = held(text, true)?;
        Ok(StorePrefix { text })
    }

    pub fn as_bytes(&self) -> &[u8]
        ensures { result.now ≡ prefix_text self.now }
    {
        self.text.as_bytes()
    }
}
