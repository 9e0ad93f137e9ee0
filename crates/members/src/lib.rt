// Members of the objects of a document that stays the caller's.
#![tactic(auto)]

mod cursor;
mod laws;
mod reader;
mod walk;

pub use cursor::Cursor;
pub use laws::look_ups_tell;
pub use reader::Reader;
pub use walk::ValuePlace;
