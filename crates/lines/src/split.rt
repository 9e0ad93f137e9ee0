// A line cut into words.
ghost use Rattle.std.specs.Prelude.{◌≡◌, map, IfOk, vec_items};
ghost use Rattle.lines.specs.Words.{cut};

use std::alloc::{AllocError, Global};

// What stands between the spaces of a line.
pub fn words(heap: Global, line: &[u8]) -> Result<Vec<Vec<u8>>, AllocError>
    ensures { IfOk result (λ v. map vec_items v.items ≡ cut line.now) }
{
    let mut words = Vec::new(heap);
    for word in line.split(|b| *b == b' ') {
        words.push(Vec::from_slice(heap, word)?)?;
    }
    Ok(words)
}
