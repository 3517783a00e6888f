//! A table of entries that are found by their keys, in chains.
//!
//! Entries whose keys fall into one bucket are linked, the newest first. The keys, the values and the links stand in lists of their own, so an entry
//! is a number, and an insertion within the room that was made takes no memory.
#![tactic(auto)]

mod chain;
mod laws;

pub use chain::Chain;
pub use laws::walks;
