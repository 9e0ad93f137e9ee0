// Bytes in order, text, and the one shape of a refusal.
#![tactic(auto)]

mod bytes;
mod fault;
mod laws;
mod utf8;

pub use bytes::{ByteRank, begins_with, compare, compare_by, equal, shared_len};
pub use fault::{Fault, FaultReport, Layer};
pub use laws::{byte_order_is_total, test_is_library, test_is_table};
pub use utf8::{is_text, sequence_len};
