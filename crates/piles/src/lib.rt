// Layers on layers: work done on any store through a pile of layers, and what is known of the store when the layers are gone.
#![tactic(auto)]

mod fault;
mod pile;
mod put;
mod work;

pub use fault::PileFault;
pub use pile::Layers;
pub use put::{Put, put_fenced, put_mounted};
pub use work::{Work, in_fence, in_mount};
