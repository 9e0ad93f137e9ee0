// Where a text has its `/`s.
ghost use Rattle.std.specs.Prelude.{◌≡◌, ◌+◌, ◌<◌, true, length, drop, slice_index};
ghost use Rattle.paths.specs.Names.{no_slash};

// Whether a text has no `/`.
pub(crate) fn is_plain(text: &[u8]) -> bool
    ensures { result ≡ no_slash text.now }
{
    !text.contains(&b'/')
}

// The last `/` of a text that begins with one.
pub(crate) fn last_slash(text: &[u8]) -> usize
    requires { (0 < length text.now) × (slice_index text.now 0 ≡ 47) }
    ensures within { result < length text.now }
    ensures stands { slice_index text.now result ≡ 47 }
    ensures plain { no_slash (drop (result + 1) text.now) ≡ true }
{
    text.iter().rposition(|b| *b == b'/').unwrap_or(0)
}
