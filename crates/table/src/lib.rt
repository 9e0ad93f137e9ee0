// A table in lent slots, for records of any type. Where they have a strict order they are kept in it; `Sorted` is the table whose type says so.
#![tactic(auto)]

mod order;
mod rows;
mod shift;
mod sorted;
#[cfg(test)]
mod tests;

pub use order::{ByOrd, ByOwn, Ordered, OrderedBy};
pub use rows::{Record, Refusal, Table};
pub use sorted::Sorted;
