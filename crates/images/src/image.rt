// An image: bytes held for reading, and how many pairs they spell.
ghost use Rattle.std.specs.Prelude.{◌≡◌, ℕ, true, false, None, unwrap_or};
ghost use Rattle.images.specs.Spells.{listed, Checked, Meant};
ghost use Rattle.images.specs.Tests.{sound, upheld};

use crate::records::tally;
use keys::StoreFault;

// How many pairs the bytes spell; bytes that are no image are refused.
pub fn check(bytes: &[u8]) -> Result<usize, StoreFault>
    ensures { Checked bytes.now result }
{
    Image::new(bytes).check()
}

// The bytes, and how many pairs they spell; none where they are no image.
#[derive(Drop)]
pub struct Image<'a> {
    pub(crate) bytes: &'a [u8],
    pub(crate) count: Option<usize>,
    ghost stands: { upheld bytes.now count ≡ true },
    ghost refused: { (n : ℕ) → count ≡ None → sound bytes.now n ≡ false },
}

impl<'a> Image<'a> {
    // The pairs that the bytes spell, counted in one pass.
    pub fn new(bytes: &'a [u8]) -> Image<'a>
        ensures holds { result.bytes.now ≡ bytes.now }
        ensures means { Meant bytes.now (listed result.bytes.now 0 (unwrap_or result.count 0)) }
    {
        let count = tally(bytes);
        Image { bytes, count }
    }

    // How many pairs the bytes spell, or the refusal of bytes that are no image.
    pub fn check(&self) -> Result<usize, StoreFault>
        ensures { Checked self.now.bytes.now result }
    {
        self.count.ok_or(StoreFault::Image)
    }
}
