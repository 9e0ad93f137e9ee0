// Scripts of calls performed on an archive in memory, each call answered in a line.
#![tactic(auto)]

mod answers;
mod line;
mod pile;
mod run;
mod session;
mod store_calls;
mod texts;

pub use run::report;
