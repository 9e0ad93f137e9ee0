// The compact text of a document, written into a lent output.
#![tactic(auto)]

mod squeeze;
mod write;

pub use write::compact;
