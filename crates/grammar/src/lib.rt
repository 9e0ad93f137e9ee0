// The grammar of JSON texts: definitions, and what they amount to.
#![tactic(auto)]

mod kinds;
mod laws;

pub use kinds::{Char, Class, Escape, FirstHex, Lead, Phase, Place, Punct, SecondHex, Start};
pub use laws::{
    compact_text_drops_white_space, compact_text_stays, objects_end_by_themselves, one_tree,
    text_or_longest_start, texts_are_read, texts_are_utf8,
};
