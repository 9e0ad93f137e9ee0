// Bytes as they are printed.
#![tactic(auto)]

mod shown;

pub use shown::{push_quoted, push_shown};
