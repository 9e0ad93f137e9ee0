// A store seen from a path: what lies under the path's prefix, without the prefix.
#![tactic(auto)]

mod mount;
mod parts;
mod room;

pub use mount::Mount;
pub use room::room_at;
