// The class list of an archive: from what was found in its folders to its nodes in path order.
#![tactic(auto)]

pub mod found;
pub mod listing;
