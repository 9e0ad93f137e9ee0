// A fence around a store: under the prefixes of its raised rows nothing is taken and nothing is let go.
#![tactic(auto)]

mod fence;
mod rows;
mod table;

pub use fence::Fence;
pub use table::{Row, Rows};
