// Reading JSON from the caller's bytes: whole documents, and, for the crates above, the parts at the front of what is left.
#![tactic(auto)]

mod bare;
mod fault;
mod kinds;
mod read;
mod scan;

pub use bare::Bare;
pub use fault::{DocumentFault, Stop};
pub use kinds::is_blank;
pub use read::{Named, document, name, value};
pub use scan::blanks;
