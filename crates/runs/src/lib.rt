// Pairs that lie in the order of their keys, and what is asked of them, by halving.
#![tactic(auto)]

mod children;
mod list;
mod order;
mod read;
mod run;
mod search;

pub use list::{next_child, next_key};
pub use order::{comes_before, is_before};
pub use read::{find, get};
pub use run::PairRun;
pub use search::seek;
