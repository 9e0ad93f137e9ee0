// A text handed out in a buffer.
ghost use Rattle.std.specs.Prelude.{◌≡◌, length, Some};
ghost use Rattle.stores.specs.Answers.{fitted, answer, filled};

use keys::StoreFault;

// Writes a text to the front of the buffer and answers its length; a text longer than the buffer is refused.
pub fn hand_out(text: &[u8], buf: &mut [u8]) -> Result<Option<usize>, StoreFault>
    ensures answers { result ≡ answer (fitted (length buf.old) (Some text.now)) }
    ensures fills { buf.new ≡ filled (fitted (length buf.old) (Some text.now)) buf.old }
{
    let n = text.len();
    if n > buf.len() {
        return Err(StoreFault::Longer);
    }
    buf[..n].copy_from_slice(text);
    Ok(Some(n))
}
