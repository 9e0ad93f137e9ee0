// Little-endian numbers.
ghost use Rattle.std.specs.Prelude.{◌≡◌, ◌+◌, ◌<◌, ◌≤◌, length};
ghost use Rattle.images.specs.Layout.{number2, number4};

// Two bytes.
// Kept: a function for each size, since `from_le_bytes` belongs to each number type and to no trait, and a fold over so many bytes would hide the two sizes.
pub(crate) fn short(bytes: &[u8], at: usize) -> usize
    requires { at + 2 ≤ length bytes.now }
    ensures is { result ≡ number2 bytes.now at }
    ensures small { result < 65536 }
{
    u16::from_le_bytes([bytes[at], bytes[at + 1]]) as usize
}

// Four bytes.
pub(crate) fn long(bytes: &[u8], at: usize) -> usize
    requires { at + 4 ≤ length bytes.now }
    ensures is { result ≡ number4 bytes.now at }
    ensures small { result < 4294967296 }
{
    u32::from_le_bytes([bytes[at], bytes[at + 1], bytes[at + 2], bytes[at + 3]]) as usize
}
