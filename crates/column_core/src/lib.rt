//! Columns in all formats, as lists and as the bytes of files.
//!
//! A list of 64-bit numbers has one file in each format. So a column is its file, and callers see it as a format and a list.
#![tactic(auto)]

mod blocks;
mod builders;
mod columns;
mod cursors;
mod encodings;
mod files;
mod gathers;
mod heads;
mod laws;
mod picks;
mod upgrades;
mod words;

pub use blocks::{block_len, check_block, decode_block, encode_block};
pub use builders::{Builder, encode_list};
pub use columns::Column;
pub use cursors::Cursor;
pub use gathers::Gather;
pub use heads::{HEAD_LEN, Head, Version, read_head};
pub use laws::{file_size, has_block, has_file, one_block, one_column, one_encoding, one_file};
