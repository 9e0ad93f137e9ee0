// Names of JSON members, compared with their escapes undone.
#![tactic(auto)]

mod compare;
mod undone;

pub use compare::name_is;
pub use undone::{Given, Undoing};
