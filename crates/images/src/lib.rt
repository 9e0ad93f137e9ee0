// A store over bytes held for reading.
#![tactic(auto)]

mod image;
mod laws;
mod numbers;
mod records;
mod store;

pub use image::{Image, check};
pub use laws::{examples_hold, one_spelling, test_is_spelling};
