// What the commands of walqyndem do, on values alone: no file and no terminal is reached from here.
#![tactic(auto)]

pub mod command;
pub mod explain;
pub mod report;
#[cfg(test)]
mod tests;
