//! Bit packing of tails: the values after the last whole block, one after the other.
//!
//! Value `i` has the bits from `i * width` on, the lowest first: bit `k` of a tail is bit `k mod 8` of byte `k div 8`. What is
//! left of the last byte is 0. A tail has fewer than 1,024 values, so it is read and written value by value.
#![tactic(auto)]

mod checking;
mod laws;
mod lengths;
mod packing;
mod reading;

pub use checking::check;
pub use laws::{has_tail, one_tail, one_unpacked, word_tail};
pub use lengths::packed_len;
pub use packing::pack;
pub use reading::{pick, unpack};
