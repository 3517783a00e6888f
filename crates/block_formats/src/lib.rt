//! The three formats that encode a block's values as they are: as words, packed at the column's width, and packed at the
//! block's own width.
//!
//! Each is a packing, with the laws of `block_core::Packing`. None takes memory.
#![tactic(auto)]

mod dynamic_blocks;
mod plain_blocks;
mod static_blocks;
mod words;

pub use dynamic_blocks::Dynamic;
pub use plain_blocks::Words;
pub use static_blocks::Static;
