// Bytes as they are printed, so that a line stays a line.
ghost use Rattle.std.specs.Prelude.{◌≡◌, ◌<◌, ◌++◌, OnOk};
ghost use Rattle.printing.specs.Shown.{shown, quoted, first, hex, hex_digit};

use std::alloc::AllocError;

// Kept: these functions share the output alone, and a method's receiver would say no more than `out`.
// Adds the bytes: `"` and `\` behind a backslash, bytes below 0x20 and bytes that are not part of well-formed UTF-8 as `\xhh`.
pub fn push_shown(out: &mut Vec<u8>, bytes: &[u8]) -> Result<(), AllocError>
    ensures { OnOk result (out.new.items ≡ out.old.items ++ shown bytes.now) }
{
    let mut rest = bytes;
    while let [byte, behind @ ..] = rest {
        let length = text::sequence_len(rest, 0);
        push_first(out, *byte, length)?;
        let (more, next) = behind.split_at(length.unwrap_or(0).saturating_sub(1));
        out.extend_from_slice(more)?;
        rest = next;
    }
    Ok(())
}

// Adds the bytes in double quotes, shown so.
pub fn push_quoted(out: &mut Vec<u8>, bytes: &[u8]) -> Result<(), AllocError>
    ensures { OnOk result (out.new.items ≡ out.old.items ++ quoted bytes.now) }
{
    out.push(b'"')?;
    push_shown(out, bytes)?;
    out.push(b'"')?;
    Ok(())
}

// Adds a byte with which a sequence of the length begins, or that is part of none.
fn push_first(out: &mut Vec<u8>, byte: u8, length: Option<usize>) -> Result<(), AllocError>
    ensures { OnOk result (out.new.items ≡ out.old.items ++ first length byte) }
{
    if length.is_none() || byte < 0x20 {
        push_hex(out, byte)?;
    } else if byte == b'"' || byte == b'\\' {
        out.extend_from_slice(&[b'\\', byte])?;
    } else {
        out.push(byte)?;
    }
    Ok(())
}

// Adds a byte as `\xhh`.
fn push_hex(out: &mut Vec<u8>, byte: u8) -> Result<(), AllocError>
    ensures { OnOk result (out.new.items ≡ out.old.items ++ hex byte) }
{
    out.extend_from_slice(&[b'\\', b'x', hex_digit(byte / 16), hex_digit(byte % 16)])
}

// Kept: formatted by the library, each byte would take a text of its own from the heap.
fn hex_digit(value: u8) -> u8
    requires { value < 16 }
    ensures { result ≡ hex_digit value }
{
    match value {
        0..=9 => b'0' + value,
        _ => b'a' + (value - 10),
    }
}
