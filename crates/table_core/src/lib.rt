//! Tables in memory: the columns of a schema's tables, each with a value for each row, and the dictionaries of text columns.
#![tactic(auto)]

mod codes;
mod errors;
mod keys;
mod tables;

pub use errors::{KeyError, PutError};
pub use tables::{StoredColumn, Tables};
