// A part of the bytes in use replaced by another text.
ghost use Rattle.std.specs.Prelude.{◌≡◌, ◌+◌, ◌-◌, ◌≤◌, ◌++◌, length, take, drop};

// Puts a text in the place of the `old` bytes at `place` and moves what is in use behind them.
#[tactic(auto, using(crate::proofs::Splicing::spliced))]
pub(crate) fn splice(bytes: &mut [u8], place: usize, old: usize, used: usize, text: &[u8])
    requires part { place + old ≤ used }
    requires within { used ≤ length bytes.old }
    requires room { used + length text.now ≤ length bytes.old + old }
    ensures { bytes.new ≡ take place bytes.old ++ (text.now ++ (take (used - (place + old)) (drop (place + old) bytes.old) ++ drop (used - old + length text.now) bytes.old)) }
{
    let end = place + text.len();
    bytes.copy_within(place + old..used, end);
    bytes[place..end].copy_from_slice(text);
}
