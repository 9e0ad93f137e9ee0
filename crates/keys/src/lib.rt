// Keys of a store, prefixes of keys, and the keys of a node.
#![tactic(auto)]

mod fault;
mod file;
mod key;
mod laws;
mod prefix;
mod store_key;

pub use fault::StoreFault;
pub use file::MetadataFile;
pub use key::{data_key, meta_key};
pub use laws::{
    examples_hold, key_and_prefix_forms, keys_differ, keys_under_prefix, path_keys_are_keys,
};
pub use prefix::{path_of_prefix, prefix_of};
pub use store_key::{MAX_KEY, MAX_PREFIX, StoreKey, StorePrefix, is_key, is_prefix};
