//! Reading column files of both versions: bytes are accepted exactly if they are the file of some column.
//!
//! The reader goes over the bytes once, block by block, and keeps nothing of them. Each refusal names the first fault.
#![tactic(auto)]

mod blocks;
mod errors;
mod laws;
mod reading;
mod tails;

pub use errors::ColumnError;
pub use laws::{no_fault, one_fault};
pub use reading::read_column;
