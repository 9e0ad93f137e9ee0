// The lines of a script, read as calls.
#![tactic(auto)]

pub mod call;
mod calls;
mod numbers;
mod split;
pub mod word;

pub use calls::parse;
pub use split::words;
