// A store in lent slots and lent bytes.
#![tactic(auto)]

mod laws;
mod lay;
mod shelf;
mod slot;
mod splice;

pub use laws::takes_what_fits;
pub use shelf::Shelf;
pub use slot::{Slot, Span};
