// What every store offers: reading, listing and writing.
#![tactic(auto)]

mod answers;
mod back;
mod calls;
mod count;
mod laws;
mod list;
mod read;
mod write;

pub use answers::hand_out;
pub use back::{read_back, read_gone};
pub use calls::{longest_of, put};
pub use count::count_children;
pub use laws::{
    equal_stores_answer_alike, erase_absent, erase_then_get, listing_finds_all,
    look_ups_tell_pairs, other_keys_stay, set_then_get, views_join, views_of_stores,
    writes_keep_lawful,
};
pub use list::ListStore;
pub use read::ReadStore;
pub use write::WriteStore;
